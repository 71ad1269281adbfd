//! A call, one step at a time, beside other clients: the request for its lock, one operation from its latch to its record,
//! the death of its client in one, and its answer.

mod ending;
mod gate;
pub mod laws;
mod operation;
mod request;

pub use ending::answer;
pub use gate::{Gate, GatePoint, OpenGate};
pub use operation::{die, operate};
pub use request::ask;
