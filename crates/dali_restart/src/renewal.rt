//! What a restart writes once it has recovered: its record, the other image whole, and the anchor's move to it.

mod error;
mod imaging;
pub mod laws;
mod logging;
mod renewing;

pub use error::RenewalError;
pub use imaging::write_image;
pub use logging::log_restart;
pub use renewing::{Standing, renew};
