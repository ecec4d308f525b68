//! The text of a package's source, read and written.
#![tactic(auto)]

mod content;
mod error;
mod fields;
mod joined;
mod key;
mod line;
mod pattern;
mod reading;
mod series;
mod source;
mod variable;
mod writing;

pub use error::SourceError;
pub use fields::SourceFields;
pub use pattern::{Limit, SourcePattern};
pub use reading::read;
pub use series::Series;
pub use source::SourceText;
pub use tl_pattern::PatternKind;
pub use variable::{VarName, Vars};
pub use writing::write;
