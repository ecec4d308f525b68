//! Why a command is refused, and the line that says so.
#![tactic(auto)]

mod field;
mod kinds;
mod line;
mod refusal;

pub use line::line_of;
pub use refusal::Refusal;
