ghost use Rattle.std.specs.Prelude.{◌≡◌, ◌+◌, ◌*◌, ◌≤◌, ◌<◌, ◌^◌, length};
ghost use Rattle.patch_bytes.specs.Number.{word_size};
ghost use Rattle.macho_image.specs.Command.{counted_content, is_zerofill, nsects_of, section_content, sections_content, segment_content, segment_size};
ghost use Rattle.macho_image.specs.Commands.{least};

use crate::field::{number32, word};
use patch_bytes::{ByteOrder2, Wide};

// A type of section that has no bytes in the file: zeros.
const S_ZEROFILL: u32 = 0x1;

// A type of section that has no bytes in the file: zeros, of which there can be more than 4 GiB.
const S_GB_ZEROFILL: u32 = 0xc;

// A type of section that has no bytes in the file: zeros of each thread.
const S_THREAD_LOCAL_ZEROFILL: u32 = 0x12;

/// Where the fields of a segment command and of its sections stand, in one width.
#[derive(Clone, Copy)]
pub(crate) struct SegmentLayout {
    // The command without its sections, and one section.
    fixed: usize,
    section: usize,
    // The width of an address or a size.
    word: Wide,
    fileoff: usize,
    filesize: usize,
    nsects: usize,
    // In a section.
    size: usize,
    offset: usize,
    flags: usize,
    ghost short: { (fixed < 128) × (section < 128) },
    ghost file_fields: { (fileoff + word_size word ≤ fixed) × (filesize + word_size word ≤ fixed) },
    ghost count_field: { nsects + 4 ≤ fixed },
    ghost size_field: { size + word_size word ≤ section },
    ghost section_fields: { (offset + 4 ≤ section) × (flags + 4 ≤ section) },
}

/// `segment_command` and `section` of loader.h.
pub(crate) const NARROW: SegmentLayout = SegmentLayout {
    fixed: 56,
    section: 68,
    word: Wide::W32,
    fileoff: 32,
    filesize: 36,
    nsects: 48,
    size: 36,
    offset: 40,
    flags: 56,
};

/// `segment_command_64` and `section_64` of loader.h.
pub(crate) const WIDE: SegmentLayout = SegmentLayout {
    fixed: 72,
    section: 80,
    word: Wide::W64,
    fileoff: 40,
    filesize: 48,
    nsects: 64,
    size: 40,
    offset: 48,
    flags: 64,
};

/// The lesser of a position and the offset of content, which counts unless it is 0 or nothing stands
/// there.
pub(crate) fn lower(so_far: usize, offset: u64, size: u64) -> usize
    ensures { result ≡ least so_far (counted_content offset size) }
{
    if offset > 0 && size > 0 {
        so_far.min(offset as usize)
    } else {
        so_far
    }
}

/// Whether sections with these flags have no bytes in the file: `S_ZEROFILL`, `S_GB_ZEROFILL` and
/// `S_THREAD_LOCAL_ZEROFILL`, which stand in the low 8 bits.
fn is_zerofill(flags: u32) -> bool
    ensures { result ≡ is_zerofill flags }
{
    matches!(
        flags % 256,
        S_ZEROFILL | S_GB_ZEROFILL | S_THREAD_LOCAL_ZEROFILL
    )
}

impl SegmentLayout {
    ghost use Rattle.macho_image.specs.Layout.{form_of_layout};

    /// The least size of a segment command: its fixed part and, where that is there, its sections.
    /// Takes no memory.
    #[tactic(auto, unfolding(crate::specs::Command::segment_size))]
    pub(crate) fn least_size(self, order: ByteOrder2, command: &[u8]) -> usize
        ensures { result ≡ segment_size (form_of_layout self) order command.now }
    {
        if command.len() < self.fixed {
            return self.fixed;
        }
        self.fixed + self.section * number32(command, self.nsects, order) as usize
    }

    /// The lesser of a position and of where the content of a segment and of its sections begins. Takes
    /// no memory.
    #[tactic(auto, using(crate::proofs::ContentLaws::contents), unfolding(crate::specs::Command::segment_content))]
    pub(crate) fn lower_by_segment(self, order: ByteOrder2, command: &[u8], so_far: usize) -> usize
        requires fixed { self.fixed ≤ length command.now }
        requires sections { self.fixed
            + self.section * nsects_of (form_of_layout self) order command.now
            ≤ length command.now }
        ensures { result ≡ least so_far (segment_content (form_of_layout self) order command.now) }
    {
        let fileoff = word(command, self.fileoff, self.word, order);
        let filesize = word(command, self.filesize, self.word, order);
        let nsects = number32(command, self.nsects, order);
        let first = lower(so_far, fileoff, filesize);
        self.lower_by_sections(order, nsects, &command[self.fixed..], first)
    }

    // The lesser of a position and of where the content of sections begins that stand one behind
    // the other. Takes no memory.
    fn lower_by_sections(
        self,
        order: ByteOrder2,
        count: u32,
        sections: &[u8],
        so_far: usize,
    ) -> usize
        requires { self.section * count ≤ length sections.now }
        ensures { result
            ≡ least so_far (sections_content (form_of_layout self) order count sections.now) }
    {
        let mut first = so_far;
        let mut rest = sections;
        for _i in 0..count {
            first = self.lower_by_section(order, rest, first);
            rest = &rest[self.section..];
        }
        first
    }

    // The lesser of a position and of where the content of one section begins. Takes no memory.
    #[tactic(auto, unfolding(crate::specs::Command::section_content))]
    fn lower_by_section(self, order: ByteOrder2, section: &[u8], so_far: usize) -> usize
        requires { self.section ≤ length section.now }
        ensures { result ≡ least so_far (section_content (form_of_layout self) order section.now) }
    {
        if is_zerofill(number32(section, self.flags, order)) {
            return so_far;
        }
        let offset = number32(section, self.offset, order);
        let size = word(section, self.size, self.word, order);
        lower(so_far, u64::from(offset), size)
    }
}
