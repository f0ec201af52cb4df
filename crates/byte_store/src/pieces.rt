ghost use Rattle.std.specs.Prelude.{◌≡◌, ◌+◌, ◌≤◌, length};
ghost use Rattle.byte_store.specs.Known.{put_at};

/// Bytes that are to stand in a store from an offset on.
#[derive(Clone, Copy, Debug)]
pub struct Piece<'a> {
    /// Where the bytes begin in the store.
    pub offset: u64,
    /// The bytes.
    pub bytes: &'a [u8],
}

/// Writes a part over bytes from a position on. Takes no memory.
pub fn put(bytes: &mut [u8], at: usize, part: &[u8])
    requires { at + length part.now ≤ length bytes.old }
    ensures { bytes.new ≡ put_at at part.now bytes.old }
{
    bytes[at..at + part.len()].copy_from_slice(part);
}
