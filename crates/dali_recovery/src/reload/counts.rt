//! What is counted of the records that are read.
ghost use Rattle.std.specs.Prelude.{◌≡◌, ◌<◌, ◌+◌, ◌^◌};
ghost use Rattle.dali_record.specs.Spelling.{CanBeSpelled, record_length};
ghost use Rattle.dali_record.specs.Files.{is_restarted as is_of_restart};
ghost use Rattle.dali_recovery.specs.Reload.Counting.{nothing_counted, before_restart, one_more, AreUpTo};

use dali_log::Placed;
use dali_record::{Record, length};

/// What is counted of the records from the image's place on.
#[derive(Clone, Copy, PartialEq, Eq)]
pub struct Counts {
    /// How many they are.
    pub records: u64,
    /// The sum of their lengths.
    pub bytes: u64,
    /// Where the last one is that of a restart: what stands before it.
    pub restarted: Option<BeforeRestart>,
}

/// What stands before the record of a restart, which is alone in its batch.
#[derive(Clone, Copy, PartialEq, Eq)]
pub struct BeforeRestart {
    /// The place of its batch in the log.
    pub place: u64,
    /// The sum of the lengths of the records from the image's place up to it.
    pub bytes: u64,
}

/// Whether a restart logged the record.
pub(crate) fn is_restarted(logged: &Record) -> bool
    ensures { result ≡ is_of_restart logged.now }
{
    matches!(logged, Record::Restarted { .. })
}

impl Counts {
    /// Of no record.
    pub(crate) fn new() -> Counts
        ensures { result ≡ nothing_counted }
    {
        Counts {
            records: 0,
            bytes: 0,
            restarted: None,
        }
    }

    // Where the record is that of a restart: what stands before it.
    fn before(self, given: &Placed) -> Option<BeforeRestart>
        ensures { result ≡ before_restart self given.now }
    {
        if !is_restarted(&given.entry) {
            return None;
        }
        Some(BeforeRestart {
            place: given.at.saturating_sub(5),
            bytes: self.bytes,
        })
    }

    /// Of one record more.
    pub(crate) fn with(self, given: &Placed) -> Counts
        requires { CanBeSpelled given.now.entry }
        ensures counted { self.records + 1 < 2 ^ 64 → self.bytes + record_length given.now.entry < 2 ^ 64 → result ≡ one_more self given.now }
    {
        Counts {
            records: self.records.saturating_add(1),
            bytes: self.bytes.saturating_add(length(&given.entry)),
            restarted: self.before(given),
        }
    }

    /// Of a log that ends here: what is counted of one that a store tells isn't above its end, and stays.
    pub(crate) fn up_to(self, end: u64) -> Counts
        ensures within { AreUpTo result end }
        ensures stays { AreUpTo self end → result ≡ self }
    {
        let restarted = match self.restarted {
            Some(BeforeRestart { place, bytes }) => Some(BeforeRestart {
                place: place.min(end),
                bytes: bytes.min(end),
            }),
            None => None,
        };
        Counts {
            records: self.records.min(end),
            bytes: self.bytes.min(end),
            restarted,
        }
    }
}
