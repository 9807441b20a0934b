// What is done with a file that stands: its sectors in order, moved to and from the body, and given back.
#![tactic(auto)]

pub mod header;
pub mod header_bytes;
pub mod release;
pub mod sectors;
pub mod spot;
pub mod zones;
