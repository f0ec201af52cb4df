//! Numbers that edits write or compare with.

/// The bit of DT_FLAGS_1 by which a loader leaves out its default directories (an extension of the gABI's dynamic
/// section).
pub const DF_1_NODEFLIB: u64 = 0x800;

/// The flags of an added PT_GNU_STACK (GNU extension): read, write and run.
pub const STACK_FLAGS: u32 = 7;

/// The alignment of an added PT_GNU_STACK.
pub const STACK_ALIGN: u64 = 16;

/// The most program headers that a file can have with plain numbering (gABI, ELF Header, `e_phnum`).
pub const MOST_SEGMENTS: usize = 65_534;

/// The smallest page size that may be set, in bytes.
pub const SMALLEST_PAGE: u32 = 1024;

/// The byte between two directories of a run path.
pub const COLON: u8 = b':';

/// The byte that an absolute directory begins with.
pub const SLASH: u8 = b'/';
