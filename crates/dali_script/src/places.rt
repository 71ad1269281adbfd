//! Where in a script a command may stand.
ghost use Rattle.std.specs.Prelude.{◌≡◌};
ghost use Rattle.dali_script.specs.Places;

use crate::items::Item;
use crate::names::Name;

/// A place in a script.
#[derive(Clone, Copy, PartialEq, Eq)]
pub enum Place {
    /// Before the first command.
    Start,
    /// Outside a block.
    Outside,
    /// In a block, outside a transaction.
    InBlock,
    InTransaction,
}

impl Place {
    pub fn is_in_block(self) -> bool
        ensures { result ≡ Places.is_in_block self }
    {
        matches!(self, Place::InBlock | Place::InTransaction)
    }

    /// Whether a command may stand here.
    pub fn allows(self, name: Name) -> bool
        ensures { result ≡ Places.may_stand name self }
    {
        match name {
            Name::Size | Name::Open => self == Place::Start,
            Name::End => self.is_in_block(),
            Name::Begin => self == Place::InBlock,
            Name::Insert
            | Name::Update
            | Name::Delete
            | Name::Get
            | Name::Die
            | Name::Commit
            | Name::Abort => self == Place::InTransaction,
            Name::Poke | Name::Audit | Name::Checkpoint => {
                matches!(self, Place::Outside | Place::InBlock)
            }
            Name::Client
            | Name::Cleanup
            | Name::Crash
            | Name::Restart
            | Name::Show
            | Name::Verify
            | Name::Next
            | Name::Fuse => self == Place::Outside,
        }
    }

    /// The place behind a command line that stands here.
    pub fn after(self, item: &Item) -> Place
        ensures { result ≡ Places.after item.now self }
    {
        match item {
            Item::Size { .. } | Item::Open | Item::End => Place::Outside,
            Item::Client { .. } | Item::Commit | Item::Abort => Place::InBlock,
            Item::Begin => Place::InTransaction,
            _ => self,
        }
    }
}
