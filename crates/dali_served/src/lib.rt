//! What a round leaves of which each line says that all went well.
#![tactic(auto)]

pub mod laws;
