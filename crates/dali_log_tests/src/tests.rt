//! What no clause says of the log's bytes.
mod batches;
mod logs;
mod records;
