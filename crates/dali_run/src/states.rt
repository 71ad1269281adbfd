//! What is answered while the program is down.
ghost use Rattle.std.specs.Prelude.{◌≡◌, IfOk, IfErr};
ghost use Rattle.dali_report.specs.declared.printed.Line.TheVariants as lines;
ghost use Rattle.dali_run.specs.declared.halt.Halt.TheVariants.{OutOfMemory};
ghost use Rattle.dali_run.specs.Steps.{Prints};

use crate::halt::Halt;
use crate::program::Program;
use crate::texts::text_of_line;
use dali_fuse::Fuse;
use dali_report::Line;
use dali_script::Name;
use dali_store::Store;
use std::alloc::Global;

/// A command that needs the memory, while it is given up.
pub fn down<V: Store>(
    alloc: Global,
    name: Name,
    store: Fuse<V>,
) -> (Program<V>, Result<Vec<u8>, Halt>)
    ensures prints { IfOk result.1 (λ text. Prints (lines.Down name) (Program.Down store) text.items result.0) }
    ensures same { result.0 ≡ Program.Down store }
    ensures memory { IfErr result.1 (λ halt. halt ≡ OutOfMemory) }
{
    let printed = text_of_line(alloc, &Line::Down { name });
    (Program::Down { store }, printed)
}
