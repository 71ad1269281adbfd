//! Stores around another store: `Fuse` fails calls, `Watch` tells of them.
#![tactic(auto)]

mod fuse;
mod watch;

pub use fuse::Fuse;
pub use watch::{CallKind, Hook, Watch};
