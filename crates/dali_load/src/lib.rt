//! Loading: the rows that lines `KEY VALUE` spell, the script that stores them in a new database, and what its lines say.
//!
//! A source is lines as those of a script: words separated by blanks, empty lines and comments skipped and counted. Each
//! is `KEY VALUE`, with ascending keys; the last one may be `records N`, where N is their number.
#![tactic(auto)]

mod building;
mod comparing;
mod judging;
pub mod laws;
mod reading;

pub use building::script_of;
pub use comparing::are_same;
pub use judging::{Verdict, judge};
pub use reading::rows;
