//! A disk of two slots that may stop at any moment: what a read gives, and what a crash may leave.
#![tactic(auto)]

mod cells;
mod disk;
mod file;
mod fused;
mod lock;
mod memory;
mod memory_disk;
mod slot;
mod slot_file;
mod slots;
mod why;

pub use disk::Disk;
pub use file::FileDisk;
pub use fused::FusedDisk;
pub use lock::LockFile;
pub use memory::{Call, MemoryDisk};
pub use slot::Slot;
pub use why::Why;
