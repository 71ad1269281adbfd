//! What only contracts read: items since the load. It has no bytes, and its calls do nothing when the program runs.
ghost use Rattle.std.specs.Prelude.{◌≡◌, List, [], ◌∷◌, ◌++◌};
ghost use Rattle.std.specs.Coded.{coded_list};
ghost use Rattle.dali_log.specs.Entries.{record_of};

use dali_log::Entry;
use dali_record::Record;
use dali_runs::Refusal;
use std::marker::{Model, PhantomData};

/// What is kept of a value.
pub(crate) trait Shows<T> {
    ghost shown: { Self → T };
}

impl<'a> Shows<Record> for Entry<'a> {
    ghost shown = { record_of };
}

impl Shows<Refusal> for Refusal {
    ghost shown = { λ refusal. refusal };
}

/// Items since the load: the records that were logged, or the requests that were refused.
#[derive(Drop)]
pub(crate) struct Past<T> {
    of: PhantomData<T>,
    ghost items: { List T } by { coded_list T.code },
}

impl<T> Model for Past<T> {
    ghost use Rattle.std.specs.Borrow.{ftrue};

    ghost also_owns = { λ _. ftrue };
}

// It has no bytes and owns nothing.
unsafe impl<T> Send for Past<T> {}

unsafe impl<T> Sync for Past<T> {}

impl<T> Past<T> {
    pub(crate) fn new() -> Past<T>
        ensures { result.items ≡ [] }
    {
        Past { of: PhantomData }
    }

    pub(crate) fn and<X: Shows<T>>(&self, _given: &X) -> Past<T>
        ensures { result.items ≡ self.now.items ++ X.shown _given.now ∷ [] }
    {
        Past { of: PhantomData }
    }
}
