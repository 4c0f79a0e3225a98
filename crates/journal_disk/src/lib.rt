//! A file that is written in place, and what a crash may leave of it.
//!
//! [`Disk`] is a trait, so that everything above it is proved for any implementation. Besides what a read gives, its ghost values say what a
//! crash may leave now, and what a crash at any moment since an earlier one might have left. [`MemDisk`] is a disk in memory: it
//! reveals all of that, records its calls, and fails at those that a list names, leaving the first part of a write. [`FileDisk`] is the
//! adapter over a file of the system, which is trusted: it reveals nothing.
#![tactic(auto)]

mod disk;
mod file_disk;
mod mem_disk;

pub use disk::{Disk, Length, Synced, Wrote};
pub use file_disk::FileDisk;
pub use mem_disk::{DiskCall, MemDisk};
