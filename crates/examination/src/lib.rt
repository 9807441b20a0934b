// The examination that every request but format makes first: numbers 1 to 4 and 7 of the withheld list, one function a rule over that rule's definition.
#![tactic(auto)]

pub mod broken;
pub mod chains;
pub mod check;
pub mod children;
pub mod counts;
pub mod fault;
pub mod files;
pub mod free;
pub mod owned;
pub mod pointers;
pub mod sizes;
pub mod sums;
pub mod tails;
pub mod types;
pub mod whole;
pub mod zones;
