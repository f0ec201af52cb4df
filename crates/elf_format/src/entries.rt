ghost use Rattle.std.specs.Prelude.{◌≡◌, ◌≤◌, length, IfErr};
ghost use Rattle.patch_bytes.specs.Memory.{memory_of};
ghost use Rattle.elf_format.specs.Answers.{Gives};
ghost use Rattle.elf_format.specs.Dynamic.{shown_entry, table_tags, text_tags};
ghost use Rattle.elf_format.specs.Options.{is_one_of};
ghost use Rattle.elf_format.specs.Seen.{shown_entry_model};
ghost use Rattle.elf_format.specs.declared.view_fault.ViewFault.TheVariants.{Absent};

use crate::constants::{
    DT_AUDIT, DT_AUXILIARY, DT_CONFIG, DT_DEPAUDIT, DT_FILTER, DT_GNU_HASH, DT_HASH, DT_NEEDED,
    DT_RPATH, DT_RUNPATH, DT_SONAME, DT_STRSZ, DT_STRTAB, DT_SYMENT, DT_SYMTAB, DT_VERDEF,
    DT_VERDEFNUM, DT_VERNEED, DT_VERNEEDNUM, DT_VERSYM,
};
use crate::records::EntryNumbers;
use crate::texts::text;
use crate::view_fault::ViewFault;

/// An entry of the dynamic list, with its text.
#[derive(Clone, Copy)]
pub enum ShownEntry<'a> {
    /// The tag of an entry whose number follows from the file's layout.
    Auto(u64),
    /// A tag and its number.
    Integer(u64, u64),
    /// A tag and the text that its number names.
    Text(u64, &'a [u8]),
}

/// Whether a tag's value says where a text stands (gABI, Dynamic Section).
pub fn is_text_tag(tag: u64) -> bool
    ensures { result ≡ is_one_of text_tags tag }
{
    [
        DT_NEEDED,
        DT_SONAME,
        DT_RPATH,
        DT_RUNPATH,
        DT_CONFIG,
        DT_DEPAUDIT,
        DT_AUDIT,
        DT_AUXILIARY,
        DT_FILTER,
    ]
    .iter()
    .any(|x| *x == tag)
}

/// Whether a tag's value follows from a table: its address, its size or its count (gABI, Dynamic Section).
pub fn is_table_tag(tag: u64) -> bool
    ensures { result ≡ is_one_of table_tags tag }
{
    [
        DT_STRTAB,
        DT_STRSZ,
        DT_SYMTAB,
        DT_SYMENT,
        DT_HASH,
        DT_GNU_HASH,
        DT_VERSYM,
        DT_VERDEF,
        DT_VERDEFNUM,
        DT_VERNEED,
        DT_VERNEEDNUM,
    ]
    .iter()
    .any(|x| *x == tag)
}

/// An entry with its text; `Absent` where the text doesn't end. Takes no memory.
#[tactic(auto, unfolding(crate::specs::Dynamic::shown_entry))]
pub fn show_entry<'a>(
    room: usize,
    texts: &'a [u8],
    entry: EntryNumbers,
) -> Result<ShownEntry<'a>, ViewFault>
    requires { length texts.now ≤ room }
    ensures shown { Gives shown_entry_model result (shown_entry room (memory_of texts.now) entry) }
    ensures absent { IfErr result (λ fault. fault ≡ Absent) }
{
    if is_text_tag(entry.d_tag) {
        let shown = text(room, texts, entry.d_value)?;
        Ok(ShownEntry::Text(entry.d_tag, shown))
    } else if is_table_tag(entry.d_tag) {
        Ok(ShownEntry::Auto(entry.d_tag))
    } else {
        Ok(ShownEntry::Integer(entry.d_tag, entry.d_value))
    }
}
