//! Whether symbols can get other numbers.
ghost use Rattle.std.specs.Prelude.{◌≡◌, ◌&&◌, not};
ghost use Rattle.std.specs.List.Sorted.{IsNonDecreasing};
ghost use Rattle.elf_format.specs.declared.constants.TheConstants.{SHT_DYNSYM as DYNSYM};
ghost use Rattle.elf_format.specs.Options.{is_one_of};
ghost use Rattle.elf_image.specs.ImageModel.{section_model};
ghost use Rattle.elf_image.specs.Kept.{kept_sections};
ghost use Rattle.elf_image_uses.specs.Renumbering.{can_renumber as can_image_renumber, has_opaque_user as have_opaque_user, is_opaque_user as uses_as_it_is};
ghost use Rattle.elf_image_uses.specs.Staying.{staying, table_number as number_of_table};

use crate::hash_tables::can_make_tables;
use crate::kept::{kept_at, kept_count, table_number};
use crate::numbers::{contains, is_numbered};
use elf_format::SectionData;
use elf_format::constants::{SHT_DYNSYM, SHT_NULL};
use elf_image::{Builder, Section};

// Whether a section is kept as it is and links to a table.
fn is_opaque_user(section: &Section<'_>, table: Option<usize>) -> bool
    ensures { result ≡ uses_as_it_is table (section_model section.now) }
{
    let is_opaque = matches!(section.kind, SectionData::Opaque);
    is_opaque && section.sh_type != SHT_NULL && is_numbered(table, section.sh_link as usize)
}

// Whether a section stays, and is kept as it is and links to a table.
fn is_staying_user(
    gone: &[usize],
    table: Option<usize>,
    number: usize,
    section: &Section<'_>,
) -> bool
    requires { IsNonDecreasing gone.now }
    ensures { result ≡ (not (is_one_of gone.now number)
        && uses_as_it_is table (section_model section.now)) }
{
    !contains(gone, number) && is_opaque_user(section, table)
}

/// Whether a section that stays, where those with some numbers go, is kept as it is and links to the table of symbols with a
/// number (gABI, Sections, `sh_link`): then the symbols of that table keep their numbers. `SHT_NULL` has no link. Takes no
/// memory.
pub fn has_opaque_user(image: &Builder<'_>, table: Option<usize>, gone: &[usize]) -> bool
    requires { IsNonDecreasing gone.now }
    ensures { result ≡ have_opaque_user table (staying gone.now image.now) }
{
    for i in 0..kept_count(image) {
        let (number, section) = kept_at(image, i);
        if is_staying_user(gone, table, number, section) {
            return true;
        }
    }
    false
}

// Whether a section is kept as it is and links to the dynamic symbols.
fn has_dynamic_user(image: &Builder<'_>) -> bool
    ensures { result
        ≡ have_opaque_user (number_of_table DYNSYM image.now) (kept_sections image.now) }
{
    has_opaque_user(image, table_number(image, SHT_DYNSYM), &[])
}

/// Whether the dynamic symbols can get other names, another order or other numbers: each hash table that is there can be made
/// anew (gABI, Hash Table; GNU hash section), and no section that is kept as it is links to them. Takes no memory.
pub fn can_renumber(image: &Builder<'_>) -> bool
    ensures { result ≡ can_image_renumber image.now }
{
    can_make_tables(image) && !has_dynamic_user(image)
}
