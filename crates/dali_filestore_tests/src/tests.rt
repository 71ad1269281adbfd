//! What no clause says of a store over files: what real files keep, who is kept away, and what is told of a failure.
mod fakes;
mod files;
mod locks;
mod reasons;
