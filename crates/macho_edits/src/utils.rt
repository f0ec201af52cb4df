ghost use Rattle.std.specs.Prelude.{◌≡◌, ◌^◌, ◌<◌};
ghost use Rattle.std.specs.Int.{next_multiple_of};
ghost use Rattle.patch_bytes.specs.Number.{word_size};
ghost use Rattle.patch_bytes.specs.Rounding.{IsLeastMultiple};

use macho_image::Ctx;
use patch_bytes::Wide;

/// The least multiple of 4 at or above a size in bytes, to which a command's text and its NUL are
/// padded. Takes no memory.
pub fn padding_size(size: usize) -> usize
    requires { next_multiple_of size 4 < 2 ^ 64 }
    ensures { IsLeastMultiple size 4 result }
{
    size.next_multiple_of(4)
}

/// The least multiple of a word at or above a size in bytes, to which a load command is padded: of 8 in
/// 64-bit files, of 4 in 32-bit files (loader.h, `load_command`). Takes no memory.
pub fn align_to_arch(size: usize, ctx: Ctx) -> usize
    requires { next_multiple_of size (word_size ctx.container) < 2 ^ 64 }
    ensures { IsLeastMultiple size (word_size ctx.container) result }
{
    match ctx.container {
        Wide::W32 => size.next_multiple_of(4),
        Wide::W64 => size.next_multiple_of(8),
    }
}
