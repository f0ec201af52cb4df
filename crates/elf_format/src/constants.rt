//! The numbers that the System V gABI and the GNU extensions give a meaning.

/// File types (gABI, ELF Header, `e_type`).
pub const ET_EXEC: u16 = 2;

pub const ET_DYN: u16 = 3;

// Machines whose pages may be larger than 4 KiB (gABI, ELF Header, `e_machine`).

/// SPARC, 32 bits.
pub const EM_SPARC: u16 = 2;

/// MIPS, the one machine with relocations of its own form.
pub const EM_MIPS: u16 = 8;

/// PowerPC, 32 bits.
pub const EM_PPC: u16 = 20;

/// PowerPC, 64 bits.
pub const EM_PPC64: u16 = 21;

/// SPARC Version 9, 64 bits.
pub const EM_SPARCV9: u16 = 43;

/// Intel IA-64.
pub const EM_IA_64: u16 = 50;

/// ARM, 64 bits.
pub const EM_AARCH64: u16 = 183;

/// Tilera TILE-Gx.
pub const EM_TILEGX: u16 = 191;

/// LoongArch.
pub const EM_LOONGARCH: u16 = 258;

/// Alpha, by the number that its files have, which the gABI doesn't list.
pub const EM_ALPHA: u16 = 0x9026;

/// Values of `e_ident` (gABI, ELF Header, ELF Identification).
pub const ELFCLASS32: u8 = 1;

pub const ELFCLASS64: u8 = 2;

pub const ELFDATA2LSB: u8 = 1;

pub const ELFDATA2MSB: u8 = 2;

pub const EV_CURRENT: u8 = 1;

/// The first number that is no section but a special meaning (gABI, Special Section Indexes).
pub const SHN_LORESERVE: u16 = 0xff00;
/// The section number that says to look elsewhere, which no accepted file uses.
pub const SHN_XINDEX: u16 = 0xffff;
/// The number of program headers that says to look elsewhere, which no accepted file has.
pub const PN_XNUM: u16 = 0xffff;

/// Segment types (gABI, Program Header, `p_type`); those named GNU are extensions.
pub const PT_LOAD: u32 = 1;

pub const PT_DYNAMIC: u32 = 2;

pub const PT_INTERP: u32 = 3;

pub const PT_NOTE: u32 = 4;

pub const PT_PHDR: u32 = 6;

pub const PT_TLS: u32 = 7;

pub const PT_GNU_STACK: u32 = 0x6474_e551;

pub const PT_GNU_RELRO: u32 = 0x6474_e552;

pub const PT_GNU_PROPERTY: u32 = 0x6474_e553;

/// The flag of a segment whose bytes may be run (gABI, Program Header, `p_flags`).
pub const PF_X: u32 = 1;

/// Section types (gABI, Sections, `sh_type`); those named GNU are extensions.
pub const SHT_NULL: u32 = 0;

pub const SHT_PROGBITS: u32 = 1;

pub const SHT_SYMTAB: u32 = 2;

pub const SHT_STRTAB: u32 = 3;

pub const SHT_RELA: u32 = 4;

pub const SHT_HASH: u32 = 5;

pub const SHT_DYNAMIC: u32 = 6;

pub const SHT_NOTE: u32 = 7;

pub const SHT_NOBITS: u32 = 8;

pub const SHT_REL: u32 = 9;

pub const SHT_DYNSYM: u32 = 11;

pub const SHT_GNU_HASH: u32 = 0x6fff_fff6;

pub const SHT_GNU_VERDEF: u32 = 0x6fff_fffd;

pub const SHT_GNU_VERNEED: u32 = 0x6fff_fffe;

pub const SHT_GNU_VERSYM: u32 = 0x6fff_ffff;

/// Section flags (gABI, Sections, `sh_flags`).
pub const SHF_WRITE: u64 = 1;

pub const SHF_ALLOC: u64 = 2;

pub const SHF_EXECINSTR: u64 = 4;

pub const SHF_INFO_LINK: u64 = 0x40;

pub const SHF_TLS: u64 = 0x400;

/// Dynamic tags (gABI, Dynamic Section, `d_tag`); those of versions and GNU_HASH are extensions.
pub const DT_NULL: u64 = 0;

pub const DT_NEEDED: u64 = 1;

pub const DT_HASH: u64 = 4;

pub const DT_STRTAB: u64 = 5;

pub const DT_SYMTAB: u64 = 6;

pub const DT_STRSZ: u64 = 10;

pub const DT_SYMENT: u64 = 11;

pub const DT_SONAME: u64 = 14;

pub const DT_RPATH: u64 = 15;

pub const DT_DEBUG: u64 = 21;

pub const DT_RUNPATH: u64 = 29;

pub const DT_GNU_HASH: u64 = 0x6fff_fef5;

pub const DT_CONFIG: u64 = 0x6fff_fefa;

pub const DT_DEPAUDIT: u64 = 0x6fff_fefb;

pub const DT_AUDIT: u64 = 0x6fff_fefc;

pub const DT_VERSYM: u64 = 0x6fff_fff0;

pub const DT_FLAGS_1: u64 = 0x6fff_fffb;

pub const DT_VERDEF: u64 = 0x6fff_fffc;

pub const DT_VERDEFNUM: u64 = 0x6fff_fffd;

pub const DT_VERNEED: u64 = 0x6fff_fffe;

pub const DT_VERNEEDNUM: u64 = 0x6fff_ffff;

pub const DT_AUXILIARY: u64 = 0x7fff_fffd;

pub const DT_FILTER: u64 = 0x7fff_ffff;

/// The bit of a version symbol that hides the symbol, and the lowest index of a version with a record
/// (GNU symbol versioning, `.gnu.version`).
pub const VERSYM_HIDDEN: u16 = 0x8000;

pub const VER_NDX_FIRST: u16 = 2;
