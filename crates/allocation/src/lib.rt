// The lower part's second half: the choice of blocks, pointers, and the tables of new and growing files.
#![tactic(auto)]

pub mod choice;
pub mod file;
pub mod growth;
pub mod header;
pub mod last;
pub mod new_parent;
pub mod plan;
pub mod size;
pub mod table;
pub mod tail;
