//! The top call of the program: it reads a command's words and carries the command out over the outside.
#![tactic(auto)]

mod acting;
pub mod actions;
mod top;

pub use tl_command::{Acted, Ending, Refusal, Session};
pub use tl_regexp::Regexps;
pub use top::texlive;
