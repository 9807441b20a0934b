// Sectors marked: what the tables own and what is withheld, in a table of bits; and whether a withheld list is allowed.
#![tactic(auto)]

pub mod marks;
pub mod withheld;
