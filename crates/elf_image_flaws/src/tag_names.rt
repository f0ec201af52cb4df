use elf_format::constants::{
    DT_AUDIT, DT_AUXILIARY, DT_CONFIG, DT_DEPAUDIT, DT_FILTER, DT_GNU_HASH, DT_HASH, DT_NEEDED,
    DT_RPATH, DT_RUNPATH, DT_SONAME, DT_STRSZ, DT_STRTAB, DT_SYMENT, DT_SYMTAB, DT_VERDEF,
    DT_VERDEFNUM, DT_VERNEED, DT_VERNEEDNUM, DT_VERSYM,
};

// The name of a tag whose value follows from a table.
fn table_tag_name(tag: u64) -> Option<&'static str> {
    match tag {
        DT_STRTAB => Some("DT_STRTAB"),
        DT_STRSZ => Some("DT_STRSZ"),
        DT_SYMTAB => Some("DT_SYMTAB"),
        DT_SYMENT => Some("DT_SYMENT"),
        DT_HASH => Some("DT_HASH"),
        DT_GNU_HASH => Some("DT_GNU_HASH"),
        DT_VERSYM => Some("DT_VERSYM"),
        DT_VERDEF => Some("DT_VERDEF"),
        DT_VERDEFNUM => Some("DT_VERDEFNUM"),
        DT_VERNEED => Some("DT_VERNEED"),
        DT_VERNEEDNUM => Some("DT_VERNEEDNUM"),
        _ => None,
    }
}

// The name of a tag, where it is that of a table or of a text.
pub(crate) fn tag_name(tag: u64) -> Option<&'static str> {
    match tag {
        DT_NEEDED => Some("DT_NEEDED"),
        DT_SONAME => Some("DT_SONAME"),
        DT_RPATH => Some("DT_RPATH"),
        DT_RUNPATH => Some("DT_RUNPATH"),
        DT_CONFIG => Some("DT_CONFIG"),
        DT_DEPAUDIT => Some("DT_DEPAUDIT"),
        DT_AUDIT => Some("DT_AUDIT"),
        DT_AUXILIARY => Some("DT_AUXILIARY"),
        DT_FILTER => Some("DT_FILTER"),
        _ => table_tag_name(tag),
    }
}

// What stands nowhere at a tag's value, by what the tag is for.
pub(crate) fn tag_meaning(tag: u64) -> &'static str {
    match tag {
        DT_STRTAB => "no string table that the dynamic section links to begins there",
        DT_STRSZ => "the string table that the dynamic section links to is shorter",
        DT_SYMTAB => "no table of dynamic symbols begins there",
        DT_SYMENT => "a symbol has another size",
        DT_HASH | DT_GNU_HASH => "no hash table of that kind begins there",
        DT_VERSYM => "no versions of symbols begin there",
        DT_VERDEF => "no defined versions begin there",
        DT_VERNEED => "no needed versions begin there",
        DT_VERDEFNUM | DT_VERNEEDNUM => "the section of these versions has another count",
        _ => "no table has that value",
    }
}
