//! Backups: their names, the frame of an installed package, and what comes back from one.
#![tactic(auto)]

mod added;
mod error;
mod listing;
mod look;
mod make;
mod names;

pub use added::autobackup;
pub use error::BackupError;
pub use listing::list;
pub use look::{large_quantity, missing_file};
pub use make::backup;
pub use names::{Backup, backup_path, pruned};
