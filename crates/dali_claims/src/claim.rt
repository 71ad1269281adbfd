// The word under its rule, and the seats that draw from it.
ghost use Rattle.std.specs.Prelude.{◌≡◌, ℕ, ◌<◌, ◌≤◌, true, false, [], ◌∷◌, ◌++◌, length, IfOk, OnOk, IfSome, IfNone};
ghost use Rattle.dali_claims.specs.Claims.{Offer, Drawn, Draws, AllBelow, AreFresh, AreOf, IsRow, one_if};
ghost use Rattle.dali_claims.specs.Rule.{hand};

use atomic_table::{Join, Play, Seat, Shared, Split, Table, TableRule};
use std::alloc::{AllocError, Global};
use std::collections::LinkedList;
use std::marker::{Brand, Model, PhantomData};

type Board = Shared<(), View, (u64, u64), EachOnce>;

// What a seat knows: of how many seats it is made, the numbers below the count that they drew, and how many of them drew
// one at or past it. No value of it is made.
struct View {
    seats: u64,
    drawn: LinkedList<u64>,
    over: u64,
}

// The key is the count, and the number of seats.
struct EachOnce;

impl TableRule<(), View, (u64, u64)> for EachOnce {
    ghost use Rattle.std.specs.Prelude.{[]};
    ghost use Rattle.dali_claims.specs.Rule.{Kept, hand};

    ghost holds = { Kept };

    ghost first = { λ key. hand key.1 [] 0 };
}

// The count and the number of seats. Each call picks them.
trait Sizes {
    ghost count: { ℕ };

    ghost seats: { ℕ };
}

impl Sizes for Brand {
    ghost count = { 0 };

    ghost seats = { 0 };
}

struct Draw<C> {
    of: PhantomData<C>,
}

impl<C: Sizes> Play<(), View> for Draw<C> {
    ghost use Rattle.dali_claims.specs.Rule.{DrawsOne};

    ghost then = { DrawsOne C.count };
}

struct Learn<C> {
    of: PhantomData<C>,
}

impl<C: Sizes> Play<(), View> for Learn<C> {
    ghost use Rattle.dali_claims.specs.Rule.{Learns};

    ghost then = { Learns C.count C.seats };
}

// A seat made of none.
struct Arrive;

impl Play<(), View> for Arrive {
    ghost use Rattle.std.specs.Prelude.{◌≡◌, []};
    ghost use Rattle.dali_claims.specs.Rule.{hand};

    ghost then = { λ s v n w. (w.0 ≡ hand 0 [] 0) };
}

// The new seat is made of one of them.
struct One;

impl Split<View> for One {
    ghost use Rattle.std.specs.Prelude.{[], ◌-◌};
    ghost use Rattle.dali_claims.specs.Rule.{hand};

    ghost left = { λ v. hand (v.seats - 1) v.drawn v.over };

    ghost right = { λ v. hand 1 [] 0 };
}

struct Both;

impl Join<View> for Both {
    ghost use Rattle.std.specs.Prelude.{[], ◌+◌, ◌++◌};
    ghost use Rattle.dali_claims.specs.Rule.{hand};

    ghost both = { λ v w. hand (v.seats + w.seats) (v.drawn ++ w.drawn) (v.over + w.over) };

    ghost spent = { hand 0 [] 0 };
}

/// What threads draw from: one word, how many numbers were drawn. Contracts see its name, the count and how many seats it
/// has.
#[derive(Drop)]
pub struct Claims {
    table: Table<(), View, (u64, u64), EachOnce, Global>,
    count: u32,
}

impl Model for Claims {
    ghost Value = { Offer };

    ghost view = { λ c. record { table = c.table.shared.table_id; count = c.count; seats = c.table.shared.key.1 } };

    ghost invariant = { λ c. (c.table.shared.table_id.words ≡ 1) × (c.table.shared.key.0 ≡ c.count) × (c.table.shared.key.1 < 4294967296) × (c.count < 4294967296) };
}

/// What a thread draws with. Contracts see which word it is of, the numbers below the count that it drew, and whether it
/// has drawn one at or past the count.
#[derive(Drop)]
pub struct ClaimSeat {
    seat: Seat<(), View>,
    over: bool,
}

impl Model for ClaimSeat {
    ghost Value = { Drawn };

    ghost view = { λ s. record { table = s.seat.table_id; drawn = s.seat.me.0.drawn; over = s.over } };

    ghost invariant = { λ s. s.seat.me ≡ (hand 1 s.seat.me.0.drawn (one_if s.over), []) };
}

impl Claims {
    /// The numbers below `count`, of which none is drawn, and so many seats.
    pub fn new(
        alloc: Global,
        count: u32,
        seats: u32,
    ) -> Result<(Claims, Vec<ClaimSeat>), AllocError>
        ensures { IfOk result (λ r. (r.0.count ≡ count) × (r.0.seats ≡ seats) × (length r.1.items ≡ seats) × AreFresh r.0.table r.1.items) }
    {
        let mut list = Vec::with_capacity(alloc, seats as usize)?;
        let (table, host) = Table::of_words(alloc, &[0], &(u64::from(count), u64::from(seats)))?;
        deal(&table.shared, host, seats, &mut list)?;
        Ok((Claims { table, count }, list))
    }

    /// Draws a number below the count that no seat had, in one step. None where the number that the seat drew, in this call
    /// or an earlier one, is at or past the count; then the seat draws no more, so the word never reaches its end.
    pub fn next(&self, seat: &mut ClaimSeat) -> Option<u32>
        requires { seat.old.table ≡ self.now.table }
        ensures table { seat.new.table ≡ seat.old.table }
        ensures some { IfSome result (λ n. Draws self.now.count n seat.old seat.new) }
        ensures none { IfNone result ((seat.new.over ≡ true) × (seat.new.drawn ≡ seat.old.drawn)) }
    {
        if seat.over {
            return None;
        }
        let number = draw_one::<Brand>(&self.table.shared, &mut seat.seat);
        if number < u64::from(self.count) {
            return Some(number as u32);
        }
        seat.over = true;
        None
    }

    /// The numbers that were drawn are those below some number, each once, which is the count where a seat got None. The
    /// seats come in any order.
    pub fn finish(self, seats: Vec<ClaimSeat>)
        requires { AreOf self.table seats.items × (length seats.items ≡ self.seats) }
        ensures { IsRow self.count seats.items }
    {
        let Claims { table, count: _ } = self;
        close::<Brand>(&table.shared, seats);
    }
}

fn draw_one<C: Sizes>(board: &Board, seat: &mut Seat<(), View>) -> u64
    requires board { (board.now.table_id.words ≡ 1) × (board.now.key ≡ (C.count, C.seats)) × (C.count < 4294967296) × (C.seats < 4294967296) }
    requires seat { (seat.old.table_id ≡ board.now.table_id) × (seat.old.me ≡ (hand 1 seat.old.me.0.drawn 0, [])) }
    ensures table { seat.new.table_id ≡ seat.old.table_id }
    ensures below { AllBelow result seat.old.me.0.drawn }
    ensures some { result < C.count → seat.new.me ≡ (hand 1 (seat.old.me.0.drawn ++ result ∷ []) 0, []) }
    ensures none { C.count ≤ result → seat.new.me ≡ (hand 1 seat.old.me.0.drawn 1, []) }
{
    board.fetch_add::<Draw<C>>(seat, 0, 1)
}

fn deal(
    board: &Board,
    mut host: Seat<(), View>,
    seats: u32,
    list: &mut Vec<ClaimSeat>,
) -> Result<(), AllocError>
    requires words { board.now.table_id.words ≡ 1 }
    requires host { (host.table_id ≡ board.now.table_id) × (host.me ≡ (hand seats [] 0, [])) }
    requires list { list.old.items ≡ [] }
    ensures { OnOk result ((length list.new.items ≡ seats) × AreFresh board.now.table_id list.new.items) }
{
    let mut dealt = 0;
    while dealt < seats {
        let seat = board.split_seat::<One>(&mut host);
        list.push(ClaimSeat { seat, over: false })?;
        dealt += 1;
    }
    Ok(())
}

// All seats are made one, which looks.
fn close<C: Sizes>(board: &Board, mut seats: Vec<ClaimSeat>)
    requires board { (board.now.table_id.words ≡ 1) × (board.now.key ≡ (C.count, C.seats)) }
    requires all { AreOf board.now.table_id seats.items × (length seats.items ≡ C.seats) }
    ensures { IsRow C.count seats.items }
{
    let (_, mut seat) = board.load_new_seat::<Arrive>(0);
    while let Some(taken) = seats.pop() {
        let ClaimSeat {
            seat: other,
            over: _,
        } = taken;
        board.join_seat::<Both>(&mut seat, other);
    }
    board.load::<Learn<C>>(&mut seat, 0);
}

// Threads may share the claims and be given a seat.
fn crosses_threads(claims: &Claims, seat: ClaimSeat) -> ClaimSeat
    ensures { result ≡ seat }
{
    crosses(claims, seat)
}

fn crosses<T: Sync, U: Send>(_: &T, given: U) -> U
    ensures { result ≡ given }
{
    given
}
