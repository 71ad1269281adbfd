//! The words of the command line of `dali`, without the program's name.
//!
//! | words | ranges |
//! |---|---|
//! | `run [--precheck] [--log-limit N]` | N from 4,096 to 268,435,456; 67,108,864 where none is given |
//! | `gen CLIENTS SIZE NUMBER` | CLIENTS from 1 to 64, SIZE from 1 to 1,000, NUMBER below 2^64 |
//! | `dump`, `show`, `status` | |
//! | `load I H` | I from 1 to 32,768, H from 1 to 65,536 |
//!
//! Words are taken as `clap` takes them of one command with these six subcommands and no help or version. A number is 1
//! to 20 ASCII digits. All else is faulty; `asks_for` tells which faulty words ask for help or the version.
#![tactic(auto)]

mod error;
mod form;
mod help;
pub mod laws;
mod reading;
mod task;

pub use error::ArgumentError;
pub use help::{HELP, HINT, Question, VERSION, asks_for};
pub use reading::{USAGE, read};
pub use task::Task;
