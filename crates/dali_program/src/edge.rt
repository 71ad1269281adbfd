//! The edge of the program: its words, the standard streams and the files.
ghost use Rattle.std.specs.Prelude.{◌≡◌, [], IfErr, IsErr, IsOkAnd, if◌then◌else◌};
ghost use Rattle.std.specs.IoError.{error_kind};

use crate::body::run_with;
use crate::ends::{TYPED, only_reads, question_of, reads_input, task_of, tell_end, tell_stream};
use dali_console::{Followed, KeptInput, KeptOutput, Progress};
use dali_filestore::{FileStore, LockFile, NO_LOCKS, Place};
use dali_streams::{StdSink, StdSource};
use std::alloc::{AllocError, Global};
use std::env::{self, Args, Env};
use std::fs::OpenFile;
use std::io::{self, ErrorKind, Input, IsTerminal, Print};
use std::marker::{Send, Sync};
use std::os::unix::fs::FileExt;
use std::process::ExitCode;
use std::sync::Wait;
use std::thread::Threads;

// The words behind the program's name. Where one isn't UTF-8 there are none, which are as wrong; each other error is want
// of memory.
fn words_behind_name(alloc: Global, words: io::Result<Args>) -> Result<Vec<String>, AllocError>
    ensures no_text { IfErr words (λ error. error_kind error ≡ ErrorKind.InvalidData → IsOkAnd result (λ none. none.items ≡ [])) }
    ensures wanting { IfErr words (λ error. (error_kind error ≡ ErrorKind.InvalidData → ⊥) → IsErr result) }
{
    match words {
        Ok(words) => words.skip(1).collect(alloc),
        Err(error) if error.kind() == ErrorKind::InvalidData => Ok(Vec::new(alloc)),
        Err(_) => Err(AllocError),
    }
}

// The store for reading where the files are only read, else the one for writing.
fn chosen<V: Drop>(only_reads: bool, writing: V, reading: V) -> V
    ensures { result ≡ (if only_reads then reading else writing) }
{
    if only_reads { reading } else { writing }
}

// Tells why a call of the store failed last, where one did, and that its files have no lock, where they have none.
fn tell_store<
    E: Print + IsTerminal + Drop,
    F: OpenFile + FileExt + LockFile + Drop,
    P: Place<F> + Drop,
>(progress: &Progress<E>, store: &FileStore<F, P>) {
    if let Some(failure) = store.failure() {
        progress.tell(format_args!("dali: {failure}\n"));
    }
    if store.has_no_locks() {
        progress.tell(format_args!("dali: {NO_LOCKS}\n"));
    }
}

/// The program over one of these stores, the one for reading where the words ask for what only reads: its words are those
/// of the process, its streams the standard ones, of which `errors` is standard error. There it tells how far it is, and
/// why it ended as it did.
pub fn program<
    R: AllocGlobal + Env + Input + Print + Threads + Wait + Sync,
    E: Print + IsTerminal + Sync + Drop,
    F: OpenFile + FileExt + LockFile + Send + Drop,
    P: Place<F> + Send + Drop,
>(rt: &R, errors: E, writing: FileStore<F, P>, reading: FileStore<F, P>) -> ExitCode
where
    R::Reader: IsTerminal,
{
    let words = words_behind_name(rt.alloc(), env::args(rt));
    let task = task_of(rt.alloc(), &words);
    let question = question_of(&words);
    let progress = Progress::new(errors);
    let reader = rt.reader();
    if reads_input(task) && reader.is_terminal() {
        progress.tell(TYPED);
    }
    let mut input = KeptInput::new(rt.alloc(), reader);
    let mut output = KeptOutput::new(io::writer(rt), &progress);
    let store = chosen(only_reads(task), writing, reading);
    let (number, store) = {
        let mut source = StdSource::new(&mut input);
        let mut sink = StdSink::new(&mut output);
        let store = Followed::new(store, &progress);
        run_with(rt, rt.alloc(), words, &mut source, &mut sink, store)
    };
    progress.clear();
    tell_store(&progress, &store.into_inner());
    tell_stream(&progress, "input", input.failure());
    tell_stream(&progress, "output", output.failure());
    tell_end(&progress, rt.alloc(), number, task, question, input.kept());
    ExitCode::from(number)
}
