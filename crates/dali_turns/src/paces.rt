//! When the clients of a round make their steps, where they go by turns: what has begun, and where.
ghost use Rattle.std.specs.Prelude.{◌≡◌, ◌<◌, true, Some, None, IsSome, if◌then◌else◌, nat_lt};
ghost use Rattle.dali_turns.specs.Wanted.{wanted_region};
ghost use Rattle.dali_turns.specs.Paces.{none_begun, begun_at, is_in, IsInUse, ComesNearer, IsPaced};

use crate::client::Client;
use dali_core::Core;
use dali_store::Store;

/// An operation that has begun: its region is its client's until it is made, behind so many turns.
#[derive(Clone, Copy)]
pub(crate) struct Begun {
    pub(crate) region: u32,
    pub(crate) turns: u32,
}

/// What the clients of a round have begun, each at its place.
#[derive(Drop)]
pub struct Paces {
    pub(crate) begun: [Option<Begun>; 64],
    /// So many of the places are paced.
    pub(crate) count: usize,
    /// Where an operation began last, by its region modulo 64: who waits for a region looks there first.
    last: [u8; 64],
}

impl Paces {
    /// Nothing has begun at the places of so many clients. Who is alone waits for nobody.
    pub fn new(clients: usize) -> Self
        ensures begun { result.begun ≡ none_begun }
        ensures count { result.count ≡ (if nat_lt 1 clients then clients else 0) }
    {
        let count = if clients > 1 { clients } else { 0 };
        Paces {
            begun: [None; 64],
            count,
            last: [0; 64],
        }
    }

    /// Whether the client at this place makes its step now. An operation of a call, or one that frees what a commit removed,
    /// begins first, where no other one has begun in its region, and is made some turns later: one that writes w words takes
    /// w + 2 turns.
    pub fn is_due<V: Store>(&mut self, place: usize, client: &Client<'_>, core: &Core<V>) -> bool
        ensures goes { IsPaced self.old place (begun_at self.old place) (wanted_region client.now.state core.now.system.state core.now.vault.flushed) result self.new }
        ensures count { self.new.count ≡ self.old.count }
    {
        let Some(begun) = self.at(place) else {
            return true;
        };
        match begun {
            Some(operation) => self.go_on(place, operation),
            None => self.begin(place, client, core),
        }
    }

    // What has begun at a place, where that one is paced.
    fn at(&self, place: usize) -> Option<Option<Begun>>
        ensures at { result ≡ begun_at self.now place }
        ensures place { IsSome result → place < 64 }
    {
        if place < self.count {
            self.begun.get(place).copied()
        } else {
            None
        }
    }

    // The operation at a place comes a turn nearer. It is made where none is left.
    fn go_on(&mut self, place: usize, operation: Begun) -> bool
        requires { place < 64 }
        ensures goes { ComesNearer self.old place operation result self.new }
        ensures count { self.new.count ≡ self.old.count }
    {
        if operation.turns == 0 {
            self.begun[place] = None;
            return true;
        }
        self.begun[place] = Some(Begun {
            turns: operation.turns - 1,
            ..operation
        });
        false
    }

    // The next operation of the client at a place begins there, unless another one has its region. Where none is its next
    // step, it makes that one now.
    fn begin<V: Store>(&mut self, place: usize, client: &Client<'_>, core: &Core<V>) -> bool
        requires { place < 64 }
        ensures goes { IsPaced self.old place (Some None) (wanted_region client.now.state core.now.system.state core.now.vault.flushed) result self.new }
        ensures count { self.new.count ≡ self.old.count }
    {
        let Some(region) = client.wanted_region(core) else {
            return true;
        };
        if self.is_in_use(region) {
            return false;
        }
        let turns = client.words_next(core, region);
        self.begun[place] = Some(Begun { region, turns });
        self.last[(region % 64) as usize] = place as u8;
        false
    }

    // Whether an operation has begun in the region.
    fn is_in_use(&self, region: u32) -> bool
        ensures used { result ≡ true → IsInUse self.now region }
        ensures free { IsInUse self.now region → result ≡ true }
    {
        let last = self.last[(region % 64) as usize];
        if is_at(self.at(last as usize), region) {
            return true;
        }
        for place in 0..self.count {
            if is_at(self.at(place), region) {
                return true;
            }
        }
        false
    }
}

// Whether an operation that has begun is in the region.
fn is_at(begun: Option<Option<Begun>>, region: u32) -> bool
    ensures { result ≡ is_in region begun }
{
    match begun {
        Some(Some(operation)) => operation.region == region,
        _ => false,
    }
}
