//! The script: its grammar.
//!
//! A script is lines that end in a line feed, which the last one may lack. A line is words separated by spaces, tabs
//! or carriage returns, any number of them. A line without words and one whose first byte is `#` are skipped, and
//! counted. The lines that remain are the commands. The first one is `size I H` or `open`; then come client blocks and
//! single commands. A block is `client N`, client commands, `end`. Blocks that follow each other with no single command
//! between them form one round, which `next` ends too.
//!
//! | command | place | ranges |
//! |---|---|---|
//! | `size I H` | first | I 1 to 32768, H 1 to 65536 |
//! | `open` | first | |
//! | `client N` | outside a block | 1 to 64 |
//! | `end` | in a block | |
//! | `begin` | in a block, outside a transaction | |
//! | `insert K V`, `update K V` | in a transaction | |
//! | `delete K`, `get K` | in a transaction | |
//! | `die N` | in a transaction | 1 to 1000000 |
//! | `commit`, `abort` | in a transaction | |
//! | `poke R W MASK` | in a block outside a transaction, or single | R below 2^32, W 0 to 63 |
//! | `audit`, `checkpoint` | in a block outside a transaction, or single | |
//! | `cleanup`, `restart`, `show`, `verify`, `next` | single | |
//! | `fuse N` | single | 0 to 1000000000 |
//! | `crash N` | single | 0 to 1000000 |
//!
//! A transaction goes from `begin` to the next `commit`, `abort` or `end`.
//!
//! A number is 1 to 20 decimal digits with a value below 2^64; a mask is 1 to 16 hexadecimal digits of either case that
//! aren't all 0. A value is 1 to 40 bytes: a byte from 0x21 to 0x7e other than the backslash stands for itself, and a
//! backslash, `x` and two hexadecimal digits of either case stand for that byte.
#![tactic(auto)]

mod commands;
mod faults;
mod forms;
mod items;
pub mod laws;
mod lines;
mod names;
mod parser;
mod places;
mod reasons;
mod texts;

pub use commands::{Block, Blocks, ClientCommand, ClientCommands, Command, Script};
pub use faults::{Kind, ScriptError};
pub use forms::{Form, Range};
pub use lines::{first_line, is_a_comment, put_words};
pub use names::Name;
pub use parser::parse;
pub use reasons::{Reason, Wanted, explain};
pub use texts::{number, value};
