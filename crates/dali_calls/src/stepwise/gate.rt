//! A place at which a client's operation may be held.

/// Is passed by a client after the last update of each operation of a call, and before its record is logged.
pub trait Gate {
    /// The client passes its point with this number; points count from 1 for each client and round.
    fn pass(&self, client: u32, point: u32);
}

/// A gate that returns at once.
#[derive(Clone, Copy, PartialEq, Eq)]
pub struct OpenGate;

impl Gate for OpenGate {
    fn pass(&self, _client: u32, _point: u32) {}
}

/// A point of a client, and the gate that it passes there.
#[derive(Drop)]
pub struct GatePoint<'a, G: Gate> {
    pub gate: &'a G,
    pub client: u32,
    pub number: u32,
}
