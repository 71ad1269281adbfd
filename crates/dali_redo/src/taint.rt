//! The scan for damage: which transactions read what was damaged, and which of their records a restart leaves out.

mod marks;
mod taint;
mod undos;

pub use taint::{Judgement, Taint};
