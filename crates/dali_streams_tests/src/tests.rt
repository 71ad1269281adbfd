//! What no clause says of what the program reads, writes and stores by.
mod stores;
mod streams;
