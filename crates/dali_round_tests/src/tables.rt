//! A table of tests: the limit of a database's log, and rounds over it, with `;` between them. A round is the blocks of clients 1, 2 and
//! so on, with `|` between them, and behind `=` what all of them say.

/// Logs that are full, shorter than the program's words allow.
pub const FULL_LOGS: [(u64, &str); 3] = [
    // 10 bytes, a begin of 9, a look of 49, a put of 116; the entry would take 82
    // the taking back took 57, and the end of the transaction 18
    (
        200,
        "begin / insert 1 a / commit = 1 begin 1 / 1 insert log full 184 200 / 1 commit ok ; begin / get 1 / commit / audit = 1 begin log full 259 200 / 1 audit clean",
    ),
    // the answer of the get would take 19
    (
        80,
        "begin / get 5 / commit = 1 begin 1 / 1 get log full 68 80 / 1 commit ok",
    ),
    // 10 bytes, two begins, an end of 9, the insert with 268, its commit with 18: there is no room for the second client's next try
    (
        310,
        "begin / insert 5 a / commit | begin / insert 5 b / commit / audit = 1 begin 1 / 1 insert ok / 1 commit ok / 2 begin 2 / 2 aborted / 2 begin log full 323 310 / 2 audit clean",
    ),
];
