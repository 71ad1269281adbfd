//! The access methods: operations on the cells of a heap region and on the entries of an index region, as functions of
//! the words of one region; and the records that a database stores.
#![tactic(auto)]

pub mod heap;
pub mod index;
