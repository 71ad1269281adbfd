//! The words that commands begin with.
ghost use Rattle.std.specs.Prelude.{◌≡◌};
ghost use Rattle.dali_script.specs.Names.{text_of, name_of};

/// The word that a command begins with.
#[derive(Clone, Copy, PartialEq, Eq)]
pub enum Name {
    Size,
    Open,
    Client,
    End,
    Begin,
    Insert,
    Update,
    Delete,
    Get,
    Die,
    Commit,
    Abort,
    Poke,
    Audit,
    Checkpoint,
    Cleanup,
    Crash,
    Restart,
    Show,
    Verify,
    Next,
    Fuse,
}

// Those that a script has most come first, since a word is compared with one after another.
const NAMES: [Name; 22] = [
    Name::Insert,
    Name::Commit,
    Name::Begin,
    Name::Get,
    Name::Update,
    Name::Delete,
    Name::Client,
    Name::End,
    Name::Abort,
    Name::Next,
    Name::Size,
    Name::Open,
    Name::Die,
    Name::Poke,
    Name::Audit,
    Name::Checkpoint,
    Name::Cleanup,
    Name::Crash,
    Name::Restart,
    Name::Show,
    Name::Verify,
    Name::Fuse,
];

impl Name {
    /// The word itself.
    pub fn text(self) -> &'static str
        ensures { result.now ≡ text_of self }
    {
        match self {
            Name::Size => "size",
            Name::Open => "open",
            Name::Client => "client",
            Name::End => "end",
            Name::Begin => "begin",
            Name::Insert => "insert",
            Name::Update => "update",
            Name::Delete => "delete",
            Name::Get => "get",
            Name::Die => "die",
            Name::Commit => "commit",
            Name::Abort => "abort",
            Name::Poke => "poke",
            Name::Audit => "audit",
            Name::Checkpoint => "checkpoint",
            Name::Cleanup => "cleanup",
            Name::Crash => "crash",
            Name::Restart => "restart",
            Name::Show => "show",
            Name::Verify => "verify",
            Name::Next => "next",
            Name::Fuse => "fuse",
        }
    }

    /// The name that is this word; none where the word begins no command.
    pub fn of(word: &[u8]) -> Option<Name>
        ensures { result ≡ name_of word.now }
    {
        NAMES
            .iter()
            .copied()
            .find(|name| name.text().as_bytes() == word)
    }
}
