// Patterns, and the names that match them. Knows bytes only.
#![tactic(auto)]

pub mod pattern;
