//! What a restart does to the words of an image: it tests each record against those before it, writes the new
//! words of blocks, performs undos, and frees what is dead.
#![tactic(auto)]

mod error;
mod image;
pub mod laws;
mod redo;
mod rules;
mod tables;
pub mod taint;
mod words;

pub use error::RedoError;
pub use image::Image;
pub use redo::Redo;
