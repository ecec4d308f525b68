//! Patterns: texts that stand for paths, by four kinds of rules, and which paths they hit.
#![tactic(auto)]

mod error;
mod form;
mod hits;
mod kind;
mod pattern;

pub use error::PatternError;
pub use hits::is_beside;
pub use kind::PatternKind;
pub use pattern::{Pattern, PlacedPattern, Reach, compile, matcher, matches, matches_re};
pub use tl_regexp::{ReMatcher, Regexps};
