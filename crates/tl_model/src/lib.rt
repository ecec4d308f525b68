//! What several crates' contracts cite: volumes, what a host is seen as and what a stop may leave of it, causes,
//! runs as lists of events, and bytes, lines and numbers. It has definitions and lemmas alone, and no code.
#![tactic(auto)]
