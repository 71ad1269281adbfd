//! A row of the table.
ghost use Rattle.std.specs.Prelude.{◌≡◌, IfOk, OnOk, OnErr};
ghost use Rattle.dali_att.specs.Table.{fresh_row, with_state, with_undo, without_last, without_undos, last_of};

use crate::state::State;
use std::alloc::{AllocError, Global};
use std::marker::Model;

/// What the table keeps of a transaction.
#[derive(Drop)]
pub struct Row<U> {
    state: State,
    undos: Vec<U>,
}

impl<U> Model for Row<U> {
    ghost use Rattle.std.specs.Coded.{coded_list};
    ghost use Rattle.dali_att.specs.Table.{Row as RowOf, coded_row};

    ghost Value = { RowOf U };

    ghost coded = { coded_row U.code };

    ghost view = { λ row. record { state = row.state; undos = row.undos.items } };
}

impl<U: Drop> Row<U> {
    pub fn new(alloc: Global) -> Self
        ensures { result ≡ fresh_row }
    {
        Row {
            state: State::Live,
            undos: Vec::new(alloc),
        }
    }

    pub fn state(&self) -> State
        ensures { result ≡ self.now.state }
    {
        self.state
    }

    pub fn set_state(&mut self, state: State)
        ensures { self.new ≡ with_state state self.old }
    {
        self.state = state;
    }

    pub fn undos(&self) -> &[U]
        ensures { result.now ≡ self.now.undos }
    {
        &self.undos
    }

    pub fn push(&mut self, undo: U) -> Result<(), AllocError>
        ensures ok { OnOk result (self.new ≡ with_undo undo self.old) }
        ensures err { OnErr result (self.new ≡ self.old) }
    {
        self.undos.push(undo)?;
        Ok(())
    }

    pub fn pop(&mut self) -> Option<U>
        ensures last { result ≡ last_of self.old.undos }
        ensures rest { self.new ≡ without_last self.old }
    {
        self.undos.pop()
    }

    pub fn clear(&mut self)
        ensures { self.new ≡ without_undos self.old }
    {
        self.undos.clear();
    }

    pub fn copy(&self, alloc: Global) -> Result<Self, AllocError>
    where
        U: Copy,
        ensures { IfOk result (λ copy. copy ≡ self.now) }
    {
        Ok(Row {
            state: self.state,
            undos: Vec::from_slice(alloc, &self.undos)?,
        })
    }
}
