ghost use Rattle.std.specs.Prelude.{◌≡◌, ◌+◌, ◌≤◌, All, length};
ghost use Rattle.arwen_macho.specs.FatState.{put_at};
ghost use Rattle.arwen_macho.specs.Fronts.{LiesIn, fronts_on};

/// Bytes that are to stand in a file from an offset on: the front of a thin file, or of a slice.
#[derive(Debug, Drop)]
pub struct Front {
    /// Where the bytes begin in the file.
    pub offset: usize,
    /// The bytes.
    pub bytes: Vec<u8>,
}

// Writes a part over the bytes from a position on.
pub(crate) fn put(bytes: &mut [u8], at: usize, part: &[u8])
    requires { at + length part.now ≤ length bytes.old }
    ensures { bytes.new ≡ put_at at part.now bytes.old }
{
    bytes[at..at + part.len()].copy_from_slice(part);
}

/// Writes fronts over a file's bytes, from the last one back. Takes no memory.
pub fn lay_fronts(bytes: &mut [u8], mut fronts: Vec<Front>)
    requires { All (LiesIn (length bytes.old)) fronts.items }
    ensures { bytes.new ≡ fronts_on fronts.items bytes.old }
{
    while let Some(front) = fronts.pop() {
        put(bytes, front.offset, &front.bytes);
    }
}
