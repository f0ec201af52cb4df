//! What callers in C lend.

/// Bytes: a pointer and a length in C.
#[repr(C)]
#[derive(Clone, Copy, Debug)]
pub struct LentText<'a> {
    /// The bytes.
    pub bytes: &'a [u8],
}

/// An edit: the number of its kind, and its texts.
#[repr(C)]
#[derive(Clone, Copy, Debug)]
pub struct LentEdit<'a> {
    /// The number of its kind.
    pub kind: u32,
    /// The texts of the edit.
    pub texts: &'a [LentText<'a>],
}
