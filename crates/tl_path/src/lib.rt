//! Paths, names, tags, platforms and other small forms. A path and a name keep their text; contracts see each
//! as its bytes.
#![tactic(auto)]

mod below;
mod bytes;
mod components;
mod error;
mod fault;
mod kinds;
mod name;
mod path;
mod path_ref;
mod platform;
mod platforms;
mod tag;
mod word;

pub use components::Components;
pub use error::{NameError, PathError, PlatformsError, TagError};
pub use fault::{PathFault, PathKind};
pub use kinds::{Category, Check};
pub use name::{Name, is_name};
pub use path::Path;
pub use path_ref::PathRef;
pub use platform::{Platform, is_platform};
pub use platforms::Platforms;
pub use tag::{Tag, is_tag};
