//! Laws of the operations on cells, each the contract of a function that does nothing.

ghost use Rattle.dali_access.specs.Heap.Laws.{OperationsStay, CellsCommute, PutsWithin, UndoesKill, UndoesChange, UndoesPut, PutTakesFirst};
ghost use Rattle.dali_access.specs.Heap.Orders.{PutReads, OperationsCommute, PutCommutes, PutTakesFreed};

/// An operation that names a cell reads words of this cell alone, writes only words that it reads,
/// and depends on no others.
pub fn operations_stay_in_their_cell()
    ensures { OperationsStay }
{}

/// Operations on two cells do the same in either order.
pub fn operations_on_two_cells_commute()
    ensures { CellsCommute }
{}

/// A put writes only words that it reads, and leaves all others.
pub fn a_put_writes_what_it_reads()
    ensures { PutsWithin }
{}

/// A put takes the first free cell, and says that there is none exactly where none is free.
pub fn a_put_takes_the_first_free_cell()
    ensures { PutTakesFirst }
{}

/// To revive a cell right after it was killed gives the words before.
pub fn a_kill_is_undone()
    ensures { UndoesKill }
{}

/// To restore the length and the value words right after a change gives the words before.
pub fn a_change_is_undone()
    ensures { UndoesChange }
{}

/// To free a cell right after a put gives the words before, but for those behind the cell's state.
pub fn a_put_is_undone()
    ensures { UndoesPut }
{}

/// A put reads the states of the cells before the first free one, and that cell whole; where none is
/// free, the states of all seven. So its whole effect is known from the states alone.
pub fn a_put_reads_up_to_the_first_free_cell()
    ensures { PutReads }
{}

/// Operations on two cells do and find the same in either order: the same masks, new words and outcomes.
pub fn operations_on_two_cells_find_the_same()
    ensures { OperationsCommute }
{}

/// A put and an operation on another cell do and find the same in either order, where that cell stands
/// behind the one that the put takes, or isn't free after the operation.
pub fn a_put_commutes_with_other_cells()
    ensures { PutCommutes }
{}

/// A put after an operation that freed a cell which it would have passed takes that cell.
pub fn a_put_takes_a_cell_freed_before()
    ensures { PutTakesFreed }
{}
