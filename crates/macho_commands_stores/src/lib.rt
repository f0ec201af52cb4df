//! What stands below the commands for Mach-O files: how much of a file is read for an edit, whether it bears code
//! signatures, what is told of those whose pages don't fit, and the pieces of its bytes that an edit and new slots of its
//! signatures change.
#![tactic(auto)]

mod changes;
mod loading;
mod renewing;
mod signed;
mod slices;
mod verdict;

pub use changes::{
    changes_of, front_changes, lent_pieces, push_changes_at, standing_pieces, write_changes_of,
};
pub use loading::{Loaded, load_for_edits};
pub use renewing::{SliceSlots, load_slots};
pub use signed::{is_signed_file, note_if};
pub use slices::{SliceFront, SliceFronts, load_fronts, load_slices};
pub use verdict::{Verdict, verdict_of};
