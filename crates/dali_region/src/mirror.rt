//! A region's past, of which contracts speak and which no code reads.
ghost use Rattle.std.specs.Prelude.{◌≡◌, true, false, ◌&&◌, ◌||◌, ◌==◌, if◌then◌else◌, bit_xor};
ghost use Rattle.dali_region.specs.State.{counted};

/// What the contracts say of a region's past: the masks of its pokes, the operations done before the first, and
/// whether a check missed them. No call answers anything of it and its fields are private here, so nothing can
/// read it, and no answer of a region rests on it.
#[derive(Drop)]
pub(crate) struct Mirror {
    stray: u64,
    sound: u64,
    poked: bool,
    missed: bool,
}

impl Mirror {
    /// The past of a region that was just loaded.
    pub(crate) fn new() -> Self
        ensures { result ≡ record { stray = 0; sound = 0; poked = false; missed = false } }
    {
        Mirror {
            stray: 0,
            sound: 0,
            poked: false,
            missed: false,
        }
    }

    /// A word was damaged by a mask.
    pub(crate) fn poke(&mut self, mask: u64)
        ensures { self.new ≡ record self.old { stray = bit_xor self.old.stray mask; poked = true } }
    {
        self.stray ^= mask;
        self.poked = true;
    }

    /// An operation is done: it counts as sound until the first poke. The count stands still at its type's end.
    pub(crate) fn touch(&mut self)
        ensures { self.new ≡ record self.old { sound = if self.old.poked then self.old.sound else counted self.old.sound } }
    {
        if !self.poked {
            self.sound = self.sound.saturating_add(1);
        }
    }

    /// A check gave this answer: by 0 it missed the pokes that came.
    pub(crate) fn check(&mut self, answer: u64)
        ensures { self.new ≡ record self.old { missed = self.old.missed || (self.old.poked && (answer == 0)) } }
    {
        if self.poked && answer == 0 {
            self.missed = true;
        }
    }
}
