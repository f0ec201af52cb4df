//! The string tables that the users of texts link to (gABI, Sections, `sh_link`).
ghost use Rattle.std.specs.Prelude.{◌≡◌};
ghost use Rattle.elf_image.specs.Kept.{dynamic_strings_number as strings_number};
ghost use Rattle.elf_layout_sizes.specs.Seen.{AreLinks};

use elf_layout_plan::Builder;
use elf_layout_plan::format_constants::{
    SHT_DYNAMIC, SHT_DYNSYM, SHT_GNU_VERDEF, SHT_GNU_VERNEED, SHT_SYMTAB,
};

// The string tables that the users of texts link to.
#[derive(Clone, Copy)]
pub(crate) struct Links {
    pub(crate) dynamic: Option<usize>,
    pub(crate) dynamic_symbols: Option<usize>,
    pub(crate) definitions: Option<usize>,
    pub(crate) needs: Option<usize>,
    pub(crate) symbols: Option<usize>,
}

// The links of an image.
pub(crate) fn links_of(image: &Builder<'_>) -> Links
    ensures { AreLinks image.now result }
{
    Links {
        dynamic: image.link_of_type(SHT_DYNAMIC),
        dynamic_symbols: image.link_of_type(SHT_DYNSYM),
        definitions: image.link_of_type(SHT_GNU_VERDEF),
        needs: image.link_of_type(SHT_GNU_VERNEED),
        symbols: image.link_of_type(SHT_SYMTAB),
    }
}

/// The number at read of the dynamic strings: of the section that the dynamic list links to, or without a list of the
/// one that the dynamic symbols link to (gABI, Dynamic Section, `DT_STRTAB`). Takes no memory.
pub fn dynamic_strings_number(image: &Builder<'_>) -> Option<usize>
    ensures { result ≡ strings_number image.now }
{
    match image.link_of_type(SHT_DYNAMIC) {
        Some(number) => Some(number),
        None => image.link_of_type(SHT_DYNSYM),
    }
}
