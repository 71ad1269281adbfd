//! The program `dali`, for the small programs that are made of it.
#![tactic(auto)]

mod body;
mod edge;
mod ends;

pub use body::run_with;
pub use edge::program;
