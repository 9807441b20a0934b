// The lower part: the volume's tables, read and written. Knows bytes only through the crate field.
#![tactic(auto)]

pub mod blocks;
pub mod books;
pub mod counts;
pub mod date;
pub mod entry;
pub mod extent;
pub mod format;
mod fresh;
pub mod index;
pub mod kind;
pub mod kinds;
pub mod label;
pub mod name;
pub mod open;
pub mod places;
pub mod refusal;
pub mod room;
pub mod sector;
pub mod sector0;
pub mod sector1;
pub mod sizes;
pub mod zone;
