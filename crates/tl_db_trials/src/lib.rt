//! Trials of entries, of the package database and of what is made of it: tables, and the database's definition, computed slowly.
#![tactic(auto)]

#[cfg(test)]
mod databases;
#[cfg(test)]
mod entries;
#[cfg(test)]
mod executes;
#[cfg(test)]
mod forms;
#[cfg(test)]
mod good;
#[cfg(test)]
mod lines;
#[cfg(test)]
mod long;
#[cfg(test)]
mod options;
#[cfg(test)]
mod slow;
#[cfg(test)]
mod tests;
#[cfg(test)]
mod written;
