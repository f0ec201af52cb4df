ghost use Rattle.std.specs.Prelude.{◌≡◌, ◌+◌, ◌≤◌, length};
ghost use Rattle.macho_signatures.specs.Blobs.{number32, number64};

use patch_bytes::{ByteOrder2, read_u32_at, read_u64_at};

// The 32-bit number at a position where its 4 bytes lie in the bytes.
pub(crate) fn number32(bytes: &[u8], pos: usize) -> u32
    requires { pos + 4 ≤ length bytes.now }
    ensures { result ≡ number32 pos bytes.now }
{
    read_u32_at(bytes, pos, ByteOrder2::Big).unwrap()
}

// The 64-bit number at a position where its 8 bytes lie in the bytes.
pub(crate) fn number64(bytes: &[u8], pos: usize) -> u64
    requires { pos + 8 ≤ length bytes.now }
    ensures { result ≡ number64 pos bytes.now }
{
    read_u64_at(bytes, pos, ByteOrder2::Big).unwrap()
}
