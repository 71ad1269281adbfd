//! A store whose log is kept in segments.
#![tactic(auto)]

mod calls;
mod extent;
mod reading;
mod segmented;

pub use extent::SegmentError;
pub use segmented::Segmented;
