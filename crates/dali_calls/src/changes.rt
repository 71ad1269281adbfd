//! What a call has changed so far.
ghost use Rattle.std.specs.Prelude.{◌≡◌, ◌<◌, [], ◌∷◌, ◌++◌, length};
ghost use Rattle.dali_record.specs.Log.{last_of, drop_last};
ghost use Rattle.dali_record.specs.Legal.{is_none_left};

use dali_record::Pending;
use std::marker::Model;

/// What takes back the operations of a call that changed something, in their order. A call has two of them at most.
/// Contracts see the list itself. No call takes memory.
#[derive(Drop)]
pub struct Changes {
    first: Option<Pending>,
    second: Option<Pending>,
}

impl Model for Changes {
    ghost use Rattle.std.specs.Prelude.{List, ◌++◌, option_to_list};
    ghost use Rattle.dali_record.specs.declared.operations.Pending.{Pending as PendingOf};
    ghost use Rattle.dali_calls.specs.Changed.{InOrder};

    ghost Value = { List PendingOf };

    ghost view = { λ c. option_to_list c.first ++ option_to_list c.second };

    ghost invariant = { λ c. InOrder c.first c.second };
}

impl Changes {
    /// No changes.
    pub fn new() -> Self
        ensures { result ≡ [] }
    {
        Changes {
            first: None,
            second: None,
        }
    }

    /// Whether the call has changed nothing.
    pub fn is_empty(&self) -> bool
        ensures { result ≡ is_none_left self.now }
    {
        self.first.is_none()
    }

    /// The last change of the call.
    pub fn last(&self) -> Option<Pending>
        ensures { result ≡ last_of self.now }
    {
        match self.second {
            Some(pending) => Some(pending),
            None => self.first,
        }
    }

    /// One change more.
    pub fn push(&mut self, pending: Pending)
        requires { length self.old < 2 }
        ensures { self.new ≡ self.old ++ pending ∷ [] }
    {
        if self.first.is_none() {
            self.first = Some(pending);
        } else {
            self.second = Some(pending);
        }
    }

    /// All changes but the last.
    pub fn pop(&mut self)
        ensures { self.new ≡ drop_last self.old }
    {
        if self.second.is_some() {
            self.second = None;
        } else {
            self.first = None;
        }
    }
}
