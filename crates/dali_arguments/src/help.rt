//! What the program says of itself.
ghost use Rattle.std.specs.Prelude.{◌≡◌, map, string_bytes};
ghost use Rattle.dali_arguments.specs.Questions.{answer_of, question_in, question_of};

/// The page of help, with the end of each line.
pub const HELP: &str = "\
dali, a main-memory storage manager whose restarts delete what stray writes reached

usage: dali run [--precheck] [--log-limit N]
       dali gen CLIENTS SIZE NUMBER
       dali dump
       dali show
       dali status
       dali load I H
       dali --help | -h
       dali --version

run     reads a script from standard input, whole, and runs it over the store; prints each answer
gen     makes a store, runs generated transactions over it, a crash and a restart; prints 4 numbers
dump    prints a line for each record of the log; only reads
show    prints the records that a restart would find, KEY VALUE, and their number; only reads
status  prints in a few lines what the store holds and what a restart would do; only reads
load    makes a database from lines KEY VALUE on standard input, as show prints them
--help, --version  print this page or the version on standard error; the status is 1

words of run
  --precheck     each operation first compares its region with the codeword
  --log-limit N  how many bytes of records the log may have, 4096 to 268435456 (else 67108864)
words of gen
  CLIENTS        how many clients, 1 to 64
  SIZE           how many transactions each client has, 1 to 1000
  NUMBER         what the choices are drawn from, 0 to 18446744073709551615
words of load
  I, H           how many index and heap regions, 1 to 32768 and 1 to 65536

The store is four files of the current folder:
  dali.log           the log, which is never cut
  dali.a, dali.b     two images, written by checkpoints in turn
  dali.anchor        which image is current
Words and scripts are tested before a file is opened or made.

status  last line on standard output   when
  0     (none)                         everything was read and run
  1     usage: ..                      the words are none of these, or a number is out of its range
  2     line L: KIND                   the script's first wrong line; why, on standard error
  3     script too long                it has more than 1048576 bytes
  4     read fault                     the script couldn't be read
  5     (none)                         standard output couldn't be written
  6     store fault                    a file of the store failed, or can't be opened or made
  7     bad store FILE AT              this file (log, a, b, anchor) is bad at this place
  8     unformatted                    there is no database
  9     formatted                      there is one already, where a new one was to be made
  10    out of memory                  memory was refused
  11    log full END LIMIT             the log has no room for a generated round, or for the records
  14    too small                      the regions have no room for the records
  15    not loaded                     the records aren't all there, for another reason

A script begins with `size INDEX HEAP` (a new database) or `open`; blocks and commands follow:
  client 1 / begin / insert 5 abc / commit / end / show
Commands, places, ranges and what each prints: docs/SCRIPT.md. Start with README.md and examples/.
";

/// The program's name and version, with the end of the line.
pub const VERSION: &str = "dali 0.1.0\n";

/// What stands behind the usage line, on standard error, with the end of the line.
pub const HINT: &str = "dali: `dali --help` prints a page of help\n";

/// What words may ask of the program itself.
#[derive(Clone, Copy, PartialEq, Eq)]
pub enum Question {
    /// The page of help.
    Help,
    /// The version.
    Version,
}

impl Question {
    /// What is answered: `HELP` or `VERSION`.
    pub fn answer(self) -> &'static str
        ensures { result.now ≡ answer_of HELP.now VERSION.now self }
    {
        match self {
            Question::Help => HELP,
            Question::Version => VERSION,
        }
    }
}

fn asked_by(word: &str) -> Option<Question>
    ensures { result ≡ question_of word.now }
{
    match word {
        "--help" | "-h" => Some(Question::Help),
        "--version" => Some(Question::Version),
        _ => None,
    }
}

/// What the words, which stand behind the program's name, ask of the program itself: `--help` or `-h`, alone, for the
/// page of help, and `--version`, alone, for the version. None for all other words. Words that ask mean no task. Takes no
/// memory.
pub fn asks_for(words: &[String]) -> Option<Question>
    ensures { result ≡ question_in (map string_bytes words.now) }
{
    let [word] = words else {
        return None;
    };
    asked_by(word)
}
