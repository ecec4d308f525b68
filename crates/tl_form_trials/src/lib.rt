//! Trials of small forms and of words, compared with tables.
#![tactic(auto)]

#[cfg(test)]
mod paths;
#[cfg(test)]
mod texts;
#[cfg(test)]
mod words;
