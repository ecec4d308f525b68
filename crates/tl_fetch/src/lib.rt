//! The containers of repositories: fetched in pieces, compared with what is stated of them, their files handed to a sink.
#![tactic(auto)]

mod container;
mod fetch_error;
mod fetching;
mod intake;
mod sink;
mod unpacking;

pub use container::{ContainerPart, container_name};
pub use fetch_error::FetchError;
pub use fetching::fetch_into;
pub use sink::FileSink;
