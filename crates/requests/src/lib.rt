// The upper part: one public module per request, over what the lower part promises; what requests share stands in private modules.
#![tactic(auto)]

// What requests take and answer is named through this crate too, so that its callers need not know the lower part.
pub use tables::{kinds, label, refusal};

mod active;
pub mod actual_delete;
pub mod amount;
mod argument;
mod body;
pub mod broken_rule;
pub mod broken_text;
pub mod create_fixed;
pub mod create_variable;
mod deleted;
pub mod dismount;
pub mod format;
pub mod grow;
mod judged;
pub mod list;
pub mod locate;
mod longer;
mod make;
pub mod mount;
mod moving;
mod named;
pub mod place_header;
pub mod read;
pub mod recover;
pub mod report;
mod room;
pub mod search;
mod sector;
pub mod set_protection;
pub mod show;
pub mod show_header;
pub mod space;
mod state;
pub mod temporary_delete;
mod text;
mod used;
mod variable;
pub mod write;
