// Where sections that move come to stand, one behind the other.
ghost use Rattle.std.specs.Prelude.{◌≡◌, ◌+◌, ◌<◌, ◌≤◌, ◌^◌, ◌∷◌, [], IfSome, IfNone, OnSome};
ghost use Rattle.std.specs.Int.{next_multiple_of};
ghost use Rattle.elf_layout_plan.specs.Added.{slots_from};
ghost use Rattle.elf_layout_plan.specs.Memory.{SizedSection};
ghost use Rattle.elf_layout_plan.specs.Rounds.{flags_for as flags_of};
ghost use Rattle.elf_layout.specs.Numbers.{numbers_of};
ghost use Rattle.elf_layout.specs.Slots.{behind_slots, end_behind, slot_behind, with_at, with_flags, with_slots};

use crate::sized::{SectionNumbers, sized_at};
use elf_format::constants::{PF_X, SHF_EXECINSTR, SHF_WRITE, SHT_NOTE};
use elf_layout_plan::constants::{PF_R, PF_W};
use elf_layout_segments::resizing::Resizing;

// A place in the file and in memory. The address may be past 64 bits.
#[derive(Clone, Copy)]
pub(crate) struct At {
    pub(crate) offset: u64,
    pub(crate) address: u128,
}

// A section's place, and its end.
#[derive(Clone, Copy)]
pub(crate) struct Stretch {
    pub(crate) start: At,
    pub(crate) end: At,
}

// The least multiple of a unit that is n or more; n itself for a unit of 0.
pub(crate) fn round_up(n: u128, unit: u64) -> u128
    requires { n < 2 ^ 67 }
    ensures value { result ≡ next_multiple_of n unit }
    ensures least { n ≤ result }
    ensures near { result ≤ n + unit }
{
    if unit == 0 {
        n
    } else {
        n.next_multiple_of(u128::from(unit))
    }
}

// What a loaded segment lets a program do with a section, by whether the dynamic section may move.
pub(crate) fn flags_for(r: &Resizing<'_, '_>, section: SectionNumbers) -> u32
    ensures { (s : SizedSection) → section ≡ numbers_of s
        → result ≡ flags_of r.now.image.moves_dynamic s.kept.section }
{
    if section.sh_type == SHT_NOTE {
        return PF_R;
    }
    let write = if r.image.may_dynamic_move() || section.sh_flags & SHF_WRITE != 0 {
        PF_W
    } else {
        0
    };
    let execute = if section.sh_flags & SHF_EXECINSTR != 0 {
        PF_X
    } else {
        0
    };
    PF_R + write + execute
}

// Where a section stands behind others; `None` where it ends past the last offset of 64 bits.
fn stand_behind(at: At, section: SectionNumbers) -> Option<Stretch>
    requires { at.address < 2 ^ 66 }
    ensures start { IfSome result (λ found. (s : SizedSection) → section ≡ numbers_of s
        → found.start ≡ slot_behind at s) }
    ensures end { IfSome result (λ found. (s : SizedSection) → section ≡ numbers_of s
        → found.end ≡ end_behind at s) }
    ensures distance { IfSome result (λ found.
        found.end.address + at.offset ≡ at.address + found.end.offset) }
    ensures fits { IfSome result (λ found. found.end.offset < 2 ^ 64) }
    ensures far { IfNone result ((s : SizedSection) → section ≡ numbers_of s
        → 2 ^ 64 ≤ (end_behind at s).offset) }
{
    let address = round_up(at.address, section.sh_addralign.max(1));
    let offset = u128::from(at.offset) + (address - at.address);
    let end = offset + u128::from(section.size);
    if end > u128::from(u64::MAX) {
        return None;
    }
    Some(Stretch {
        start: At {
            offset: offset as u64,
            address,
        },
        end: At {
            offset: end as u64,
            address: address + u128::from(section.size),
        },
    })
}

// Keeps a place for a position, where none is kept.
fn keep_at(slots: &mut [Option<At>], position: usize, at: At)
    ensures { slots.new ≡ with_at slots.old position at }
{
    if position < slots.len() && slots[position].is_none() {
        slots[position] = Some(at);
    }
}

// Places one of the sections that move, if it needs the flags; `None` where it ends past the last offset of 64 bits.
fn place_section(
    r: &Resizing<'_, '_>,
    position: usize,
    flags: u32,
    at: At,
    slots: &mut [Option<At>],
) -> Option<At>
    requires address { at.address < 2 ^ 66 }
    requires offset { at.offset < 2 ^ 64 }
    ensures end { IfSome result (λ end.
        end ≡ behind_slots at (with_flags r.now flags (position ∷ []))) }
    ensures slots { OnSome result (slots.new ≡ with_slots slots.old
        (slots_from at.offset at.address (with_flags r.now flags (position ∷ [])))) }
    ensures distance { IfSome result (λ end. end.address + at.offset ≡ at.address + end.offset) }
    ensures fits { IfSome result (λ end. end.offset < 2 ^ 64) }
    ensures far { IfNone result
        (2 ^ 64 ≤ (behind_slots at (with_flags r.now flags (position ∷ []))).offset) }
{
    let Some(section) = sized_at(r, position) else {
        return Some(at);
    };
    if flags_for(r, section) != flags {
        return Some(at);
    }
    let Some(found) = stand_behind(at, section) else {
        return None;
    };
    keep_at(slots, position, found.start);
    Some(found.end)
}

// Places those of the sections that move that need the flags; `None` where one ends past the last offset of 64 bits.
pub(crate) fn place_sections(
    r: &Resizing<'_, '_>,
    moved: &[usize],
    flags: u32,
    start: At,
    slots: &mut [Option<At>],
) -> Option<At>
    requires address { start.address < 2 ^ 65 }
    requires offset { start.offset < 2 ^ 64 }
    ensures end { IfSome result (λ end.
        end ≡ behind_slots start (with_flags r.now flags moved.now)) }
    ensures slots { OnSome result (slots.new ≡ with_slots slots.old
        (slots_from start.offset start.address (with_flags r.now flags moved.now))) }
    ensures fits { IfSome result (λ end. end.offset < 2 ^ 64) }
    ensures far { IfNone result
        (2 ^ 64 ≤ (behind_slots start (with_flags r.now flags moved.now)).offset) }
{
    let mut at = start;
    for position in moved {
        let Some(end) = place_section(r, *position, flags, at, slots) else {
            return None;
        };
        at = end;
    }
    Some(at)
}
