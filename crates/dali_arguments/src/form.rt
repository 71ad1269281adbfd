//! The command line's form.
ghost use Rattle.std.specs.Prelude.{◌≡◌, IfOk};
ghost use Rattle.clap.specs.Words.{app_of};
ghost use Rattle.dali_arguments.specs.Command.{run as run_shape, generate as generate_shape, dump as dump_shape, load as load_shape, dali, IsPart};

use clap::{Arg, ArgAction, Command};
use std::alloc::{AllocError, Global};

fn run<'a>(alloc: Global) -> Result<Command<'a>, AllocError>
    ensures { IfOk result (IsPart run_shape) }
{
    let precheck = Arg::new(alloc, "precheck")
        .long("precheck")
        .action(ArgAction::SetTrue);
    let limit = Arg::new(alloc, "log-limit")
        .long("log-limit")
        .action(ArgAction::Set);
    Command::new(alloc, "run").arg(precheck)?.arg(limit)
}

fn generate<'a>(alloc: Global) -> Result<Command<'a>, AllocError>
    ensures { IfOk result (IsPart generate_shape) }
{
    let clients = Arg::new(alloc, "clients").required(true);
    let size = Arg::new(alloc, "size").required(true);
    let number = Arg::new(alloc, "number").required(true);
    Command::new(alloc, "gen")
        .arg(clients)?
        .arg(size)?
        .arg(number)
}

fn load<'a>(alloc: Global) -> Result<Command<'a>, AllocError>
    ensures { IfOk result (IsPart load_shape) }
{
    let index = Arg::new(alloc, "index").required(true);
    let heap = Arg::new(alloc, "heap").required(true);
    Command::new(alloc, "load").arg(index)?.arg(heap)
}

/// The command line's form. AllocError where memory was wanted and refused.
pub fn command<'a>(alloc: Global) -> Result<Command<'a>, AllocError>
    ensures { IfOk result (λ c. app_of c ≡ dali) }
{
    Command::new(alloc, "dali")
        .no_binary_name(true)
        .disable_help_flag(true)
        .disable_help_subcommand(true)
        .subcommand_required(true)
        .subcommand(run(alloc)?)?
        .subcommand(generate(alloc)?)?
        .subcommand(Command::new(alloc, "dump"))?
        .subcommand(Command::new(alloc, "show"))?
        .subcommand(Command::new(alloc, "status"))?
        .subcommand(load(alloc)?)
}
