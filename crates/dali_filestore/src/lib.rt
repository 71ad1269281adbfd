//! A store over four files in a folder.
#![tactic(auto)]

mod access;
mod failure;
mod files;
mod folder;
mod folder_files;
mod guard;
mod segments;
mod store;

pub use access::Access;
pub use failure::{Cause, Failure};
pub use files::{FourFiles, Streams};
pub use folder::Folder;
pub use folder_files::FolderFiles;
pub use guard::{Guard, LockFile, NO_LOCKS};
pub use segments::SegmentPlace;
pub use store::{FileStore, Place};
