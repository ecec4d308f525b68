//! Trials across crates: the top call over devices in memory, with stops and failing calls.
#![tactic(auto)]

#[cfg(test)]
mod endings;
#[cfg(test)]
mod hosts;
#[cfg(test)]
mod pieces;
#[cfg(test)]
mod repositories;
#[cfg(test)]
mod rows;
#[cfg(test)]
mod stops;
