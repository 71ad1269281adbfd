//! The records of a store's log as lines of text.
//!
//! | record | line behind the record's number and a blank |
//! |---|---|
//! | `Format` | `format I H` |
//! | `Begin`, `Commit`, `Ended` | `begin T`, `commit T`, `ended T` |
//! | `Forward`, `Back` | `op T BLOCK`, `back T BLOCK` |
//! | `Solo` | `solo T PARENT BLOCK` |
//! | `Done` | `done T NAME KEY ANSWER`, with the answer as a client's line prints it |
//! | `AuditBegin`, `AuditClean`, `AuditFail` | `audit begin`, `audit clean BEGIN`, `audit fail BEGIN LIST` |
//! | `Restarted` | `restarted rolled back LIST deleted LIST` |
//!
//! A block is `REGION KEY OP READ XOR WRITE`: the name of its operation, and three times sixteen lower-case hexadecimal
//! digits. Records are numbered from 0; other numbers are decimal; a list has single blanks between its numbers, or is
//! `none`. Every line ends with a line feed.
#![tactic(auto)]

mod dumping;
mod error;
mod lines;

pub use dumping::dump;
pub use error::DumpError;
