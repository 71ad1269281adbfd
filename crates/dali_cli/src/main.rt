//! The program `dali`.
#![tactic(auto)]

use dali_filestore::FileStore;
use dali_program::program;
use std::process::ExitCode;

fn main(rt: HostRuntime) -> ExitCode {
    let writing = FileStore::in_folder(&rt, ".");
    let reading = FileStore::reading_folder(&rt, ".");
    program(&rt, rt.stderr(), writing, reading)
}
