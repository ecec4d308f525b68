//! The five files that are made from the executes of a database.
#![tactic(auto)]

mod database;
mod file;
mod format;
mod hyphen;
mod lua;
mod map;
mod say;

pub use database::{fmtutil, language_dat, language_def, language_lua, updmap};
pub use file::{ConfigFile, push_executes, push_lines};
