//! What calls return.

/// What was asked for is in the answer.
pub const ARWEN_OK: u32 = 0;

/// The file or an edit is refused.
pub const ARWEN_REFUSED: u32 = 1;

/// The words or the array are no list of edits for the file.
pub const ARWEN_WORDS: u32 = 2;

/// Some pages of a code signature don't fit.
pub const ARWEN_UNFIT: u32 = 3;

/// There was no memory.
pub const ARWEN_MEMORY: u32 = 4;

/// The number of no edit.
pub const NO_EDIT: usize = usize::MAX;

/// Leave for the dynamic section of an ELF file to move where it has no room.
pub const ARWEN_MOVE_DYNAMIC: u32 = 1;

/// Pages that the edits touch are made to fit again in ad-hoc code signatures of a Mach-O file.
pub const ARWEN_SIGN: u32 = 2;
