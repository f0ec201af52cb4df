//! Flags of segments that only the layout asks for.

/// The flag of a segment whose bytes may be written (gABI, Program Header, `p_flags`).
pub const PF_W: u32 = 2;

/// The flag of a segment whose bytes may be read (gABI, Program Header, `p_flags`).
pub const PF_R: u32 = 4;
