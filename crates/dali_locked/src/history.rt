//! The one history of a round: where it began, and what may be added to it.

use dali_notes::Rules;
use std::marker::{Brand, Model, PhantomData};

/// Where a round began. Whoever makes the values of a round picks it.
pub trait Beginning: Send + Sync {
    ghost use Rattle.dali_locked.specs.Begun.{Begun};

    ghost begun: { Begun };
}

impl Beginning for Brand {
    ghost use Rattle.dali_locked.specs.Begun.{nowhere};

    ghost begun = { nowhere };
}

/// The notes of a round, which are made where it is known where the round began. Whoever then makes its values picks them.
pub trait Home: Send + Sync {
    ghost use Rattle.atomic_table.specs.Seated.{TableId};

    ghost table: { TableId };
}

impl Home for Brand {
    ghost use Rattle.dali_locked.specs.Begun.{no_table};

    ghost table = { no_table };
}

/// An entry of the history. No value of it is made.
pub struct Mark {
    nothing: u8,
}

impl Model for Mark {
    ghost use Rattle.std.specs.Coded.{codes};
    ghost use Rattle.dali_system.specs.Coded.{system_code};
    ghost use Rattle.dali_concurrent.specs.Told.{Item};
    ghost use Rattle.dali_locked.specs.Begun.{no_item};

    ghost Value = { Item };

    ghost coded = { Prim.hlevel (codes, system_code) };

    ghost view = { λ m. no_item };
}

/// What may be added to the history of the round that began so.
pub struct OfRound<B: Beginning> {
    of: PhantomData<B>,
}

impl<B: Beginning> Rules<Mark> for OfRound<B> {
    ghost use Rattle.dali_locked.specs.Begun.{may_add};

    ghost may = { may_add B.begun };
}
