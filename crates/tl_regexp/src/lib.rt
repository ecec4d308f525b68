//! Regular expressions that stand for whole paths: their maker, which keeps a verdict on each, and their matchers. No other crate
//! names the crate `regex`.
#![tactic(auto)]

mod matcher;
mod regexp;
mod regexps;
mod verdicts;

pub use matcher::ReMatcher;
pub use regexp::{Regexp, RegexpError};
pub use regexps::Regexps;
