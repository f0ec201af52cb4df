use elf_format::records::SegmentHeader;
use std::marker::Model;

/// A section's place in the file that is written, and what kind of section stands there (gABI, Sections). Offsets,
/// addresses and sizes are in bytes.
#[derive(Clone, Copy, Debug)]
pub struct SectionPlace {
    /// What the section is for, as `SHT_DYNSYM`.
    pub sh_type: u32,
    /// `SHF_ALLOC` for a section that takes memory, and other flags.
    pub sh_flags: u64,
    /// Where the section stands in memory.
    pub sh_addr: u64,
    /// Where the section stands in the file.
    pub sh_offset: u64,
    /// How many bytes the section has.
    pub sh_size: u64,
}

/// What a plan is made of.
#[derive(Debug, Drop)]
pub struct PlanParts {
    /// The place of each section of the image, in order.
    pub places: Vec<SectionPlace>,
    /// The program headers that are written, in order.
    pub segments: Vec<SegmentHeader>,
    /// Where the program header table stands in the file.
    pub e_phoff: u64,
    /// Where the section header table stands in the file.
    pub e_shoff: u64,
    /// How often sections that move were looked for.
    pub rounds: usize,
    /// How many program headers more the last round looked with.
    pub looked: usize,
}

/// Where everything of an edited image goes.
#[derive(Debug, Drop)]
pub struct Plan {
    parts: PlanParts,
}

impl Model for Plan {
    ghost use Rattle.elf_layout_plan.specs.Plan.{Plan as PlanValue};
    ghost use Rattle.elf_layout_plan.specs.PlanModel.{plan_model};

    ghost Value = { PlanValue };

    ghost view = { plan_model };
}

impl Plan {
    ghost use Rattle.std.specs.Prelude.{◌≡◌, map};
    ghost use Rattle.elf_layout_plan.specs.PlanModel.{parts_model, place_model};

    /// A plan of these parts. Takes no memory.
    pub fn new(parts: PlanParts) -> Plan
        ensures { result ≡ parts_model parts }
    {
        Plan { parts }
    }

    /// The place of each section of the image, in order. Takes no memory.
    pub fn places(&self) -> &[SectionPlace]
        ensures { map place_model result.now ≡ self.now.places }
    {
        self.parts.places.as_slice()
    }

    /// The program headers that are written (gABI, Program Header), in order. Takes no memory.
    pub fn segments(&self) -> &[SegmentHeader]
        ensures { result.now ≡ self.now.segments }
    {
        self.parts.segments.as_slice()
    }

    /// Where the program header table stands in the file (gABI, ELF Header). Takes no memory.
    pub fn e_phoff(&self) -> u64
        ensures { result ≡ self.now.e_phoff }
    {
        self.parts.e_phoff
    }

    /// Where the section header table stands in the file (gABI, ELF Header). Takes no memory.
    pub fn e_shoff(&self) -> u64
        ensures { result ≡ self.now.e_shoff }
    {
        self.parts.e_shoff
    }

    /// How often sections that move were looked for. Takes no memory.
    pub fn rounds(&self) -> usize
        ensures { result ≡ self.now.rounds }
    {
        self.parts.rounds
    }

    /// How many program headers more than the image has segments the last round looked with. No fewer than are
    /// added; there may be more. Takes no memory.
    pub fn looked(&self) -> usize
        ensures { result ≡ self.now.looked }
    {
        self.parts.looked
    }
}
