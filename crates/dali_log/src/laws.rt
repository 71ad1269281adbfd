//! Laws of logs and of batches that are added one after another, each the contract of a function that does nothing.
ghost use Rattle.std.specs.Prelude.{◌++◌, [], ◌∷◌, ℕ, List};
ghost use Rattle.std.specs.List.{AllByRecursion};
ghost use Rattle.dali_record.specs.declared.records.Record.{Record};
ghost use Rattle.dali_record.specs.declared.records.Record.TheVariants.{Format};
ghost use Rattle.dali_record.specs.Spelling.{CanBeSpelled, spelling};
ghost use Rattle.dali_store.specs.Store.{Files};
ghost use Rattle.dali_log.specs.Batch.{Ends};
ghost use Rattle.dali_log.specs.Appending.{next_place, Adds};
ghost use Rattle.dali_log.specs.Log.{LogOf, AreSpelled, bodies, HasFormat, IsFront};
ghost use Rattle.dali_log.specs.Laws.{HasOneReading, LogsGrow, GoesOnFrom, AppendsGoOn};

use dali_store::Store;

/// Bytes are unformatted, a log, or bad at a place, and only one of these in only one way.
pub fn bytes_have_one_reading()
    ensures { (bytes : List ℕ) → HasOneReading bytes }
{}

/// A log is its batches, and stays one with the batches that are added to it. The first batch is a Format alone.
pub fn logs_are_batches()
    ensures ends { (bytes : List ℕ) (L : List (List Record)) (e : ℕ) → LogOf bytes L e → Ends bytes 0 (bodies L) e }
    ensures first { (bytes : List ℕ) (index heap e : ℕ) → CanBeSpelled (Format index heap) → Ends bytes 0 (spelling (Format index heap) ∷ []) e
        → LogOf bytes ((Format index heap ∷ []) ∷ []) e }
    ensures grow { (old new : List ℕ) (L more : List (List Record)) (at : ℕ) → LogOf old L at → AllByRecursion AreSpelled more
        → Adds at (bodies more) old new → LogOf new (L ++ more) (next_place at (bodies more)) }
{}

/// A log that is read from a place between two of its batches is what stands before it and what was read, and so is a bad
/// one.
pub fn a_log_goes_on_from_a_place()
    ensures { (bytes : List ℕ) (L : List (List Record)) (p : ℕ) → HasFormat L → IsFront bytes L p → GoesOnFrom bytes L p }
{}

/// Where each crash leaves one log, it leaves that log with none or some of the batches that are being added, and with
/// all of them once they have been.
pub fn logs_grow<V: Store>()
    ensures { (L more : List (List Record)) (at : ℕ) (old : V) (c : Files) → ((d : Files) → V.may_leave old d → LogOf d.log L at)
        → AllByRecursion AreSpelled more → LogsGrow V.may_leave L more at old c }
{}

/// Two rows of batches that are added one after the other are one row; so are any number of them.
pub fn appends_go_on<V: Store>()
    ensures { (at : ℕ) (one two : List (List ℕ)) (old mid new : V) → AppendsGoOn V.moment V.left_since V.may_leave at one two old mid new }
{}
