//! Stores of bytes that are read whole, and in which only what changes is written.
#![tactic(auto)]

pub mod composed;
pub mod difference;
pub mod failures;
pub mod file;
mod gaps;
pub mod laws;
pub mod memory;
pub mod opens;
pub mod pieces;
pub mod reading;
mod shown;
pub mod stores;
pub mod writing;

pub use crate::composed::{Difference, OwnedPiece, Span, composed_difference, make_difference};
pub use crate::difference::{ReplaceError, replace};
pub use crate::failures::Failures;
pub use crate::file::{FileStore, RuntimeFiles};
pub use crate::memory::{MemoryFile, MemoryFolder, MemoryStore};
pub use crate::opens::{Creates, Opens};
pub use crate::pieces::{Piece, put};
pub use crate::reading::{ReadError, load_up_to, load_whole, read_up_to, read_whole};
pub use crate::stores::Store;
pub use crate::writing::{Changes, Left, WriteError, write_changes, write_pieces};
