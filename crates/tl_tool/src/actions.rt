//! The actions of the program: each takes the state between commands and carries one command out.

use tl_action::ActionName;
pub use tl_backups::backup;
pub use tl_install::install;
pub use tl_packages::remove;
pub use tl_publish::lsr;
pub use tl_restore::restore;
pub use tl_settings::{option, pinning};
pub use tl_show::{candidates, check, dump_tlpdb, info, search, which};
pub use tl_sources::expand;
pub use tl_update::update;

/// The actions that the program carries out.
pub const BUILT: [ActionName; 15] = [
    ActionName::DumpTlpdb,
    ActionName::Info,
    ActionName::Search,
    ActionName::Candidates,
    ActionName::Check,
    ActionName::Install,
    ActionName::Update,
    ActionName::Remove,
    ActionName::Backup,
    ActionName::Restore,
    ActionName::Setting,
    ActionName::Pinning,
    ActionName::Expand,
    ActionName::Lsr,
    ActionName::Which,
];
