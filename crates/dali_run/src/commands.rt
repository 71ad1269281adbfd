//! The commands of a script, each on what the run holds.
ghost use Rattle.std.specs.Prelude.{◌≡◌, ◌≤◌, IfOk, IfErr};
ghost use Rattle.dali_run.specs.Fails.{Fails};
ghost use Rattle.dali_run.specs.Program.{HoldsImages, store_of};
ghost use Rattle.dali_run.specs.Steps.{Steps};
ghost use Rattle.dali_run.specs.Told.{IsFit};

use crate::cleaning::{cleanup, show, verify};
use crate::halt::Halt;
use crate::program::Program;
use crate::rounds::{alone, round_of};
use crate::setting::Setting;
use crate::stores::{crash, fuse, open, size};
use dali_calls::stepwise::Gate;
use dali_script::{Command, Name};
use dali_store::Store;
use dali_transcripts::clients::Command as ClientCommand;

/// Runs one command, and answers the text of its lines.
pub fn step<V: Store, G: Gate>(
    setting: &Setting<'_, G>,
    command: &Command,
    program: Program<V>,
) -> (Program<V>, Result<Vec<u8>, Halt>)
    requires limit { setting.now.limit ≤ 268435456 }
    requires fit { IsFit command.now }
    requires images { HoldsImages V.Store program }
    ensures steps { IfOk result.1
        (λ text. Steps V.Store setting.now.limit setting.now.precheck program command.now text.items result.0) }
    ensures fails { IfErr result.1
        (λ halt. Fails V.Store setting.now.precheck halt command.now program (store_of result.0)) }
    ensures images { HoldsImages V.Store result.0 }
{
    match command {
        Command::Size { index, heap } => size(setting, *index, *heap, program),
        Command::Open => open(setting, program),
        Command::Restart => open(setting, program),
        Command::Round { blocks } => round_of(setting, blocks.as_slice(), program),
        Command::Poke { region, word, mask } => {
            let poke = ClientCommand::Poke {
                region: *region,
                word: *word,
                mask: *mask,
            };
            alone(setting, Name::Poke, &poke, program)
        }
        Command::Audit => alone(setting, Name::Audit, &ClientCommand::Audit, program),
        Command::Checkpoint => {
            alone(
                setting,
                Name::Checkpoint,
                &ClientCommand::Checkpoint,
                program,
            )
        }
        Command::Cleanup => cleanup(setting.alloc, program),
        Command::Crash { choice } => crash(setting, *choice, program),
        Command::Show => show(setting.alloc, program),
        Command::Verify => verify(setting, program),
        Command::Next => (program, Ok(Vec::new(setting.alloc))),
        Command::Fuse { passes } => fuse(setting.alloc, *passes, program),
    }
}
