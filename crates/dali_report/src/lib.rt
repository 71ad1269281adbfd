//! The texts of what the program prints.
//!
//! | command | lines |
//! |---|---|
//! | `begin` | `begin T` |
//! | `insert` | `insert ok`, `insert exists`, `insert full heap`, `insert full index` |
//! | `update`, `delete` | `update ok`, `update missing`, `update odd PLACE`; `delete` likewise |
//! | `get` | `got VALUE`, `get missing`, `get odd PLACE` |
//! | `commit` | `commit ok`, `commit store stopped` |
//! | `abort` | `abort ok` |
//! | `die` | none; `died` in place of the answer of the call in which the client dies |
//! | `end` in a transaction | `aborted`, `left open` |
//! | `poke` | `poke ok`, `poke out of range` |
//! | `audit` | `audit clean`, `audit failed LIST`, `audit store stopped` |
//! | `checkpoint` | `checkpoint NUMBER`, `checkpoint failed LIST`, `checkpoint in progress`, `checkpoint store stopped` |
//! | any of these but `poke` that is refused | `NAME stopped damage R`, `NAME stopped store`, `NAME log full END LIMIT` |
//! | a call on a record that is refused | `NAME damaged R CODEWORD FOUND`, `busy H` |
//! | `open`, `restart` | `rolled back LIST`, `deleted LIST`; or `restart store stopped` |
//! | `cleanup` | `cleaned LIST` |
//! | `fuse`, `crash` | `fuse N`, `crash N` |
//! | `show` | `KEY VALUE`, `records COUNT` |
//! | `verify` | `verify ok`, `verify differs`, `verify store stopped` |
//! | any other single command than `fuse`, `crash`, `restart` and `next`, while the program is down | `NAME down`; a round, `round down` |
//!
//! Numbers are decimal; codewords are sixteen lower-case hexadecimal digits. A value is printed byte by byte: those from
//! 0x21 to 0x7e but the backslash as they are, all others as a backslash, `x` and two lower-case hexadecimal digits. A
//! list of numbers has single blanks between them, or is `none`. Every line ends with a line feed. A client's line begins
//! with its number and a blank.
#![tactic(auto)]

mod leaves;
mod lines;
mod printed;
mod said;

pub use leaves::{put_text, put_with_hex, put_with_number, put_with_numbers, put_with_regions};
pub use lines::{client_line, line, said_line};
pub use printed::Line;
