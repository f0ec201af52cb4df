//! Numbers that stand at positions of a byte slice, byte strings that are borrowed until they are
//! changed, and rounding up to a multiple.
#![tactic(auto)]

pub mod byte_string;
pub mod number;
pub mod rounding;

pub use crate::byte_string::ByteString;
pub use crate::number::{
    ByteOrder2, Outside, Wide, read_u16_at, read_u32_at, read_u64_at, read_word_at, write_u16_at,
    write_u32_at, write_u64_at, write_word_at,
};
pub use crate::rounding::round_up;
