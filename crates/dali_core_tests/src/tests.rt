//! What no clause says of a system and of clean-ups: that calls succeed with ample memory, and what stands then.
mod cleanups;
mod copies;
mod operations;
mod plans;
mod rolled;
mod systems;
