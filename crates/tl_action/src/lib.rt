//! Which actions and options there are, which operands an action takes, and the values of a command.
#![tactic(auto)]

mod action_name;
mod command;
mod expected;
mod form;
mod help;
mod lists;
mod table;

pub use action_name::ActionName;
pub use command::{Action, Command, PinAction, Repositories, Repository};
pub use expected::Expected;
pub use form::{Form, PinWord, number_within};
pub use help::usage;
pub use lists::{Names, Texts};
pub use table::OptionName;
pub use tl_file::Bytes;
