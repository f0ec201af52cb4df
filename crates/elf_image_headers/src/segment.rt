ghost use Rattle.std.specs.Prelude.{◌≡◌};
ghost use Rattle.elf_image_headers.specs.PartModels.{segment_model};

use elf_format::constants::PT_LOAD;
use elf_format::records::SegmentHeader;

/// The flags of an added PT_GNU_STACK (GNU extension): read, write and run.
pub const STACK_FLAGS: u32 = 7;

/// The alignment of an added PT_GNU_STACK.
pub const STACK_ALIGN: u64 = 16;

/// The most program headers that a file can have with plain numbering (gABI, ELF Header, `e_phnum`).
pub const MOST_SEGMENTS: usize = 65_534;

/// A program header of a file (gABI, Program Header). Offsets, addresses and sizes are in bytes.
#[derive(Clone, Copy, Debug)]
pub struct Segment {
    /// All numbers of the program header.
    pub numbers: SegmentHeader,
}

impl Segment {
    ghost use Rattle.elf_image_headers.specs.Segments.{with_align};

    /// All numbers of the program header.
    pub fn numbers(&self) -> SegmentHeader
        ensures { result ≡ segment_model self.now }
    {
        self.numbers
    }

    /// What the segment is for, as `PT_LOAD`.
    pub fn p_type(&self) -> u32
        ensures { result ≡ (segment_model self.now).p_type }
    {
        self.numbers.p_type
    }

    /// Whether the segment may be read (4), written (2) and run (1).
    pub fn p_flags(&self) -> u32
        ensures { result ≡ (segment_model self.now).p_flags }
    {
        self.numbers.p_flags
    }

    /// Where the segment stands in the file.
    pub fn p_offset(&self) -> u64
        ensures { result ≡ (segment_model self.now).p_offset }
    {
        self.numbers.p_offset
    }

    /// Where the segment stands in memory.
    pub fn p_vaddr(&self) -> u64
        ensures { result ≡ (segment_model self.now).p_vaddr }
    {
        self.numbers.p_vaddr
    }

    /// Where the segment stands in memory that isn't virtual.
    pub fn p_paddr(&self) -> u64
        ensures { result ≡ (segment_model self.now).p_paddr }
    {
        self.numbers.p_paddr
    }

    /// How many bytes the segment has in the file.
    pub fn p_filesz(&self) -> u64
        ensures { result ≡ (segment_model self.now).p_filesz }
    {
        self.numbers.p_filesz
    }

    /// How many bytes the segment takes in memory.
    pub fn p_memsz(&self) -> u64
        ensures { result ≡ (segment_model self.now).p_memsz }
    {
        self.numbers.p_memsz
    }

    /// What the segment's address and its offset are congruent by, 0 or 1 for anything.
    pub fn p_align(&self) -> u64
        ensures { result ≡ (segment_model self.now).p_align }
    {
        self.numbers.p_align
    }

    /// Gives a loaded segment the alignment.
    pub fn align_load(&mut self, align: u64)
        ensures { segment_model self.new ≡ with_align align (segment_model self.old) }
    {
        if self.numbers.p_type == PT_LOAD {
            self.numbers.p_align = align;
        }
    }

    ghost use Rattle.std.specs.Borrow.{sem};
    ghost use Rattle.elf_image_headers.specs.LendingFlags.{LendsFlags};

    /// Lends the flags.
    pub fn flags_mut(&mut self) -> &mut u32
        ensures* lends { sem 𝓛 (LendsFlags self.entry result) }
        ensures value { result.now ≡ (segment_model self.old).p_flags }
    {
        let numbers = &mut self.numbers;
        &mut numbers.p_flags
    }
}
