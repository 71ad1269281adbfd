//! What only contracts read: all that changed the files. It has no bytes, and its calls do nothing when the program runs.
ghost use Rattle.std.specs.Prelude.{◌≡◌, List, [], ◌∷◌, ◌++◌};
ghost use Rattle.std.specs.Coded.{coded_list};
ghost use Rattle.dali_memfiles.specs.Events.{event_of};
ghost use Rattle.dali_memfiles.specs.declared.event.Event.{Event};
ghost use Rattle.dali_memfiles.specs.contracts.event.Event.{the_row as event_row};

use crate::event::Change;
use std::marker::Model;

/// All that changed the files, the first change first.
#[derive(Drop)]
pub(crate) struct Past {
    ghost events: { List Event } by { coded_list event_row.coded },
}

impl Model for Past {
    ghost use Rattle.std.specs.Borrow.{ftrue};

    ghost also_owns = { λ _. ftrue };
}

// It has no bytes and owns nothing.
unsafe impl Send for Past {}

unsafe impl Sync for Past {}

impl Past {
    pub(crate) fn new() -> Past
        ensures { result.events ≡ [] }
    {
        Past {}
    }

    pub(crate) fn and(&self, _change: &Change<'_>) -> Past
        ensures { result.events ≡ self.now.events ++ event_of _change.now ∷ [] }
    {
        Past {}
    }
}
