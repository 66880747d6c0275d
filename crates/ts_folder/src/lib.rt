//! A store in a folder of the file system: each object is a file.
//!
//! What a folder holds is not told, so no clause speaks of bytes on a device. Each call says which
//! kinds of answer come, and when it has failed.
#![tactic(auto)]

mod files;
mod folder;
mod listing;
mod paths;
mod trouble;

pub use folder::FolderStore;
pub use paths::PathText;
