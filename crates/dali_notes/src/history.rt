// The word under its rule, and the tokens that step on it.
ghost use Rattle.std.specs.Prelude.{◌≡◌, ℕ, List, [], ◌∷◌, ◌++◌, length, IfOk, OnOk};
ghost use mathlib.Core.Option.{some};
ghost use Rattle.dali_notes.specs.History.{IsSeen, Added, AllMay, MayAdd, Place, Sight, AreFresh, AreOf, IsWhole};
ghost use Rattle.dali_notes.specs.Kept.{Fits, fresh_from, first_of_hands, others_of_hands, signers, all_with};

use atomic_table::{Join, Play, Seat, Shared, Split, Table, TableRule};
use std::alloc::{AllocError, Global};
use std::collections::LinkedList;
use std::marker::{Brand, Model, PhantomData};

// What a seat knows: its hands, each a number with the history that its holder has seen. No value of it is made.
type View<E> = LinkedList<(u64, LinkedList<(LinkedList<u64>, E)>)>;

type Board<E, R> = Shared<(), View<E>, u64, OneHistory<R>>;

/// Which entries may be added to a history: `may log (ns, e)` says that the notes ns may add e together behind those of `log`.
pub trait Rules<E>: Send + Sync {
    ghost use Rattle.std.specs.Prelude.{ℕ, List};

    ghost may: { List (List ℕ × E) → List ℕ × E → Type 0 };
}

/// Each entry may be added, by any notes.
pub struct Anything;

impl<E> Rules<E> for Anything {
    ghost may = { λ log x. Unit {0} };
}

struct OneHistory<R> {
    of: PhantomData<R>,
}

impl<E, R: Rules<E>> TableRule<(), View<E>, u64> for OneHistory<R> {
    ghost use Rattle.dali_notes.specs.Kept.{Kept, fresh_from};

    ghost holds = { Kept R.may };

    ghost first = { fresh_from 0 };
}

// A seat without a hand.
struct Arrive;

impl<E> Play<(), View<E>> for Arrive {
    ghost use Rattle.std.specs.Prelude.{◌≡◌, []};

    ghost then = { λ s v n w. (w.0 ≡ []) };
}

struct Look<R> {
    of: PhantomData<R>,
}

impl<E, R: Rules<E>> Play<(), View<E>> for Look<R> {
    ghost use Rattle.dali_notes.specs.Kept.{Looks};

    ghost then = { Looks R.may };
}

// The entry that a step adds. Each call picks it.
trait Choice<E> {
    ghost use mathlib.Core.Option.{Option};

    ghost entry: { Option E };
}

impl<E> Choice<E> for Brand {
    ghost use mathlib.Core.Option.{none};

    ghost entry = { none };
}

struct Enter<R, C> {
    of: PhantomData<(R, C)>,
}

impl<E, R: Rules<E>, C: Choice<E>> Play<(), View<E>> for Enter<R, C> {
    ghost use Rattle.dali_notes.specs.Kept.{Enters};

    ghost then = { Enters R.may C.entry };
}

// How many notes there are. Each call picks it.
trait Counted {
    ghost count: { ℕ };
}

impl Counted for Brand {
    ghost count = { 0 };
}

struct Tally<R, C> {
    of: PhantomData<(R, C)>,
}

impl<E, R: Rules<E>, C: Counted> Play<(), View<E>> for Tally<R, C> {
    ghost use Rattle.dali_notes.specs.Kept.{Counts};

    ghost then = { Counts R.may C.count };
}

// The first hand goes to the new seat.
struct Front;

impl<E> Split<View<E>> for Front {
    ghost use Rattle.dali_notes.specs.Kept.{first_of_hands, others_of_hands};

    ghost left = { others_of_hands };

    ghost right = { first_of_hands };
}

// All but the first hand go to the new seat.
struct Guests;

impl<E> Split<View<E>> for Guests {
    ghost use Rattle.dali_notes.specs.Kept.{first_of_hands, others_of_hands};

    ghost left = { first_of_hands };

    ghost right = { others_of_hands };
}

// All hands go to the new seat.
struct Whole;

impl<E> Split<View<E>> for Whole {
    ghost use Rattle.std.specs.Prelude.{[]};

    ghost left = { λ v. [] };

    ghost right = { λ v. v };
}

struct Both;

impl<E> Join<View<E>> for Both {
    ghost use Rattle.std.specs.Prelude.{[], ◌++◌};

    ghost both = { λ v w. v ++ w };

    ghost spent = { [] };
}

// The other seat's hands come first.
struct Before;

impl<E> Join<View<E>> for Before {
    ghost use Rattle.std.specs.Prelude.{[], ◌++◌};

    ghost both = { λ v w. w ++ v };

    ghost spent = { [] };
}

/// Which entry an `add` adds, said of a value that the call is shown. Nothing of the entry is made when it runs.
pub trait Tells<X, E> {
    ghost entry: { X → E };
}

/// What threads share of a history: one word, which counts the entries modulo 2^64. Contracts see its name and how many
/// notes it has. `R` says which entries may be added.
#[derive(Drop)]
pub struct Notes<E, R: Rules<E>> {
    table: Table<(), View<E>, u64, OneHistory<R>, Global>,
}

impl<E, R: Rules<E>> Model for Notes<E, R> {
    ghost Value = { Place };

    ghost view = { λ n. record { table = n.table.shared.table_id; count = n.table.shared.key } };

    ghost invariant = { λ n. n.table.shared.table_id.words ≡ 1 };
}

/// What one holder has seen of the history. Contracts see which word it is of, its number and what was seen. Each entry that
/// it has seen was one that may be added behind those before it. An entry is signed by the notes that added it together.
#[derive(Drop)]
pub struct Note<E, R: Rules<E>> {
    number: u32,
    seat: Seat<(), View<E>>,
    of: PhantomData<R>,
}

impl<E, R: Rules<E>> Model for Note<E, R> {
    ghost use Rattle.std.specs.Prelude.{◌≡◌, [], ◌∷◌};
    ghost use Rattle.dali_notes.specs.History.{AllMay, Sight};
    ghost use Rattle.dali_notes.specs.Kept.{seen_of};

    ghost Value = { Sight E };

    ghost view = { λ n. record { table = n.seat.table_id; number = n.number; seen = seen_of n.seat.me.0 } };

    ghost invariant = { λ n. (n.seat.me ≡ ((n.number, seen_of n.seat.me.0) ∷ [], [])) × AllMay R.may (seen_of n.seat.me.0) };
}

impl<E, R: Rules<E>> Notes<E, R> {
    /// An empty history, with notes whose numbers are those below `count`.
    pub fn new(alloc: Global, count: u32) -> Result<(Notes<E, R>, Vec<Note<E, R>>), AllocError>
        ensures { IfOk result (λ r. (r.0.count ≡ count) × (length r.1.items ≡ count) × AreFresh r.0.table 0 r.1.items) }
    {
        let mut notes = Vec::with_capacity(alloc, count as usize)?;
        let (table, host) = Table::of_words(alloc, &[0], &u64::from(count))?;
        deal(&table.shared, host, count, &mut notes)?;
        Ok((Notes { table }, notes))
    }

    /// Adds the entry that `M` tells of `about`, in one step, which may be added whatever others add meanwhile. The note has
    /// then seen all that was added before, and this entry as the last.
    pub fn add<X, M: Tells<X, E>>(&self, note: &mut Note<E, R>, about: &X)
        requires table { note.old.table ≡ self.now.table }
        requires may { MayAdd R.may (note.old ∷ []) (M.entry about.now) }
        ensures table { note.new.table ≡ note.old.table }
        ensures number { note.new.number ≡ note.old.number }
        ensures added { Added (note.old ∷ []) (M.entry about.now) note.new.seen }
        ensures all { AllMay R.may note.new.seen }
    {
        sign::<X, E, R, Brand>(&self.table.shared, &mut note.seat, about);
    }

    /// The same by two notes together, which both sign the entry: neither adds another one in between.
    pub fn add_both<X, M: Tells<X, E>>(
        &self,
        note: &mut Note<E, R>,
        other: &mut Note<E, R>,
        about: &X,
    )
        requires table { (note.old.table ≡ self.now.table) × (other.old.table ≡ self.now.table) }
        requires may { MayAdd R.may (note.old ∷ other.old ∷ []) (M.entry about.now) }
        ensures table { note.new.table ≡ note.old.table }
        ensures number { note.new.number ≡ note.old.number }
        ensures added { Added (note.old ∷ other.old ∷ []) (M.entry about.now) note.new.seen }
        ensures all { AllMay R.may note.new.seen }
        ensures other { other.new ≡ record other.old { seen = note.new.seen } }
    {
        let board = &self.table.shared;
        lend(board, &mut note.seat, &mut other.seat);
        sign::<X, E, R, Brand>(board, &mut note.seat, about);
        give_back(board, &mut note.seat, &mut other.seat);
    }

    /// The same by three.
    pub fn add_three<X, M: Tells<X, E>>(
        &self,
        note: &mut Note<E, R>,
        other: &mut Note<E, R>,
        third: &mut Note<E, R>,
        about: &X,
    )
        requires table { (note.old.table ≡ self.now.table) × (other.old.table ≡ self.now.table) × (third.old.table ≡ self.now.table) }
        requires may { MayAdd R.may (note.old ∷ other.old ∷ third.old ∷ []) (M.entry about.now) }
        ensures table { note.new.table ≡ note.old.table }
        ensures number { note.new.number ≡ note.old.number }
        ensures added { Added (note.old ∷ other.old ∷ third.old ∷ []) (M.entry about.now) note.new.seen }
        ensures all { AllMay R.may note.new.seen }
        ensures other { other.new ≡ record other.old { seen = note.new.seen } }
        ensures third { third.new ≡ record third.old { seen = note.new.seen } }
    {
        let board = &self.table.shared;
        lend(board, &mut note.seat, &mut other.seat);
        lend(board, &mut note.seat, &mut third.seat);
        sign::<X, E, R, Brand>(board, &mut note.seat, about);
        give_back(board, &mut note.seat, &mut other.seat);
        give_back(board, &mut other.seat, &mut third.seat);
    }

    /// `note` sees all that `other` has seen, and all entries that `other` signed. What it sees anew it hasn't signed.
    pub fn meet(&self, note: &mut Note<E, R>, other: &mut Note<E, R>)
        requires { (note.old.table ≡ self.now.table) × (other.old.table ≡ self.now.table) }
        ensures table { note.new.table ≡ note.old.table }
        ensures number { note.new.number ≡ note.old.number }
        ensures seen { IsSeen note.new.seen note.old.number note.old.seen }
        ensures theirs { IsSeen note.new.seen other.old.number other.old.seen }
        ensures all { AllMay R.may note.new.seen }
        ensures other { other.new ≡ other.old }
    {
        let board = &self.table.shared;
        lend(board, &mut note.seat, &mut other.seat);
        board.load::<Look<R>>(&mut note.seat, 0);
        give_back(board, &mut note.seat, &mut other.seat);
    }

    /// The history that the notes leave: it begins with what each has seen, and has no entry that it signed behind that, and
    /// none of another number than theirs. Each of its entries may be added behind those before it.
    pub fn finish(self, notes: Vec<Note<E, R>>)
        requires { AreOf self.table notes.items × (length notes.items ≡ self.count) }
        ensures { (log : List (List ℕ × E)) × IsWhole log notes.items × AllMay R.may log }
    {
        let Notes { table } = self;
        close::<E, R, Brand>(&table.shared, notes);
    }
}

// The hands of `other` go to `seat`, behind its own.
fn lend<E, R: Rules<E>>(
    board: &Board<E, R>,
    seat: &mut Seat<(), View<E>>,
    other: &mut Seat<(), View<E>>,
)
    requires words { board.now.table_id.words ≡ 1 }
    requires tables { (seat.old.table_id ≡ board.now.table_id) × (other.old.table_id ≡ board.now.table_id) }
    requires empty { (seat.old.me.1 ≡ []) × (other.old.me.1 ≡ []) }
    ensures tables { (seat.new.table_id ≡ board.now.table_id) × (other.new.table_id ≡ board.now.table_id) }
    ensures seat { seat.new.me ≡ (seat.old.me.0 ++ other.old.me.0, []) }
    ensures other { other.new.me ≡ ([], []) }
{
    let guest = board.split_seat::<Whole>(other);
    board.join_seat::<Both>(seat, guest);
}

// All hands of `seat` but the first go to `other`, which has none.
fn give_back<E, R: Rules<E>>(
    board: &Board<E, R>,
    seat: &mut Seat<(), View<E>>,
    other: &mut Seat<(), View<E>>,
)
    requires words { board.now.table_id.words ≡ 1 }
    requires tables { (seat.old.table_id ≡ board.now.table_id) × (other.old.table_id ≡ board.now.table_id) }
    requires hands { (seat.old.me.1 ≡ []) × (other.old.me ≡ ([], [])) }
    ensures tables { (seat.new.table_id ≡ board.now.table_id) × (other.new.table_id ≡ board.now.table_id) }
    ensures seat { seat.new.me ≡ (first_of_hands seat.old.me.0, []) }
    ensures other { other.new.me ≡ (others_of_hands seat.old.me.0, []) }
{
    let back = board.split_seat::<Guests>(seat);
    board.join_seat::<Both>(other, back);
}

// All hands of the seat sign the entry of `C`, which the caller picks by what it is shown.
fn sign<X, E, R: Rules<E>, C: Choice<E>>(
    board: &Board<E, R>,
    seat: &mut Seat<(), View<E>>,
    about: &X,
)
    requires words { board.now.table_id.words ≡ 1 }
    requires table { seat.old.table_id ≡ board.now.table_id }
    requires entry { (e : E) × (C.entry ≡ some e)
        × ((now : List (List ℕ × E)) → Fits now seat.old.me.0 → AllMay R.may now → R.may now (signers seat.old.me.0, e)) }
    requires empty { seat.old.me.1 ≡ [] }
    ensures table { seat.new.table_id ≡ board.now.table_id }
    ensures entered { (e : E) → C.entry ≡ some e → (now : List (List ℕ × E)) × Fits now seat.old.me.0
        × AllMay R.may (now ++ (signers seat.old.me.0, e) ∷ []) × (seat.new.me ≡ (all_with (now ++ (signers seat.old.me.0, e) ∷ []) seat.old.me.0, [])) }
{
    let _ = about;
    board.fetch_add::<Enter<R, C>>(seat, 0, 1);
}

fn deal<E, R: Rules<E>>(
    board: &Board<E, R>,
    mut host: Seat<(), View<E>>,
    count: u32,
    notes: &mut Vec<Note<E, R>>,
) -> Result<(), AllocError>
    requires words { board.now.table_id.words ≡ 1 }
    requires host { (host.table_id ≡ board.now.table_id) × (host.me ≡ (fresh_from 0 count, [])) }
    requires notes { notes.old.items ≡ [] }
    ensures { OnOk result ((length notes.new.items ≡ count) × AreFresh board.now.table_id 0 notes.new.items) }
{
    let mut number = 0;
    while number < count {
        let seat = board.split_seat::<Front>(&mut host);
        notes.push(Note {
            number,
            seat,
            of: PhantomData,
        })?;
        number += 1;
    }
    Ok(())
}

// All hands go into one seat, which looks.
fn close<E, R: Rules<E>, C: Counted>(board: &Board<E, R>, mut notes: Vec<Note<E, R>>)
    requires words { board.now.table_id.words ≡ 1 }
    requires count { C.count ≡ board.now.key }
    requires all { AreOf board.now.table_id notes.items × (length notes.items ≡ board.now.key) }
    ensures { (log : List (List ℕ × E)) × IsWhole log notes.items × AllMay R.may log }
{
    let (_, mut seat) = board.load_new_seat::<Arrive>(0);
    while let Some(note) = notes.pop() {
        let Note {
            number: _,
            seat: other,
            of: _,
        } = note;
        board.join_seat::<Before>(&mut seat, other);
    }
    board.load::<Tally<R, C>>(&mut seat, 0);
}

// Threads may share the notes and be given one, whatever the entries are.
fn crosses_threads<E, R: Rules<E>>(notes: &Notes<E, R>, note: Note<E, R>) -> Note<E, R>
    ensures { result ≡ note }
{
    crosses(notes, note)
}

fn crosses<T: Sync, U: Send>(_: &T, given: U) -> U
    ensures { result ≡ given }
{
    given
}
