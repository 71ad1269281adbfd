//! What a restart knows between two records of the log: it tests each record, makes it again or leaves it out, and ends an epoch
//! at each record of a restart behind the image.
#![tactic(auto)]

mod error;
pub mod laws;
mod recovery;
pub mod reload;
mod scan;

pub use error::RecoveryError;
pub use recovery::{Damage, Recovered, Recovery};
