//! Trials of the installed tree over devices in memory.
#![tactic(auto)]

#[cfg(test)]
mod agreed;
#[cfg(test)]
mod tests;
