//! Signing Mach-O files anew: finds the code signatures of a file, tells the pages that don't fit, and makes the slots of pages
//! anew that an edit touched.
#![tactic(auto)]

pub mod check;
pub mod fault;
pub mod file;
pub mod front;
pub mod laws;
pub mod place;
pub mod scope;
pub mod thin;

pub use crate::check::{Checked, check_file};
pub use crate::fault::SigningFault;
pub use crate::file::{NewSlots, Part, parts_of, sign, signed_slots};
pub use crate::front::front_slots;
pub use crate::place::{Place, find_place};
pub use crate::scope::Scope;
pub use crate::thin::{ThinSlots, read_thin};
