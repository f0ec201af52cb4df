//! Where everything stands once some sections move.
ghost use Rattle.std.specs.Prelude.{◌≡◌, ◌==◌, find};

use crate::blocks::table_load;
use crate::following::{Anchor, anchor_of, is_any_under, is_first_of_flags, is_moved};
use crate::plain::{Part, Piece, Plain};
use elf_format::constants::{
    EM_AARCH64, EM_ALPHA, EM_IA_64, EM_LOONGARCH, EM_MIPS, EM_PPC, EM_PPC64, EM_SPARC, EM_SPARCV9,
    EM_TILEGX, PT_LOAD,
};
use std::alloc::{AllocError, Global};

/// Where a section stands.
#[derive(Clone, Copy)]
pub struct Slot {
    /// The section's position among the sections of the edited image, from 0.
    pub position: usize,
    /// Where its bytes begin in the file.
    pub offset: u128,
    /// The section's address.
    pub address: u128,
    /// The section's size in bytes.
    pub size: u128,
}

/// Where all of it stands.
#[derive(Drop)]
pub struct Standing {
    pub(crate) loads: Vec<Piece>,
    /// Where each section stands.
    pub slots: Vec<Slot>,
    /// Where the program header table begins in the file.
    pub e_phoff: u128,
    /// Where the section header table begins in the file.
    pub e_shoff: u128,
}

/// The next multiple of a number.
fn next_multiple(number: u128, of: u128) -> u128 {
    if of == 0 {
        return number;
    }
    let rest = number % of;
    if rest == 0 {
        number
    } else {
        number.saturating_add(of.saturating_sub(rest))
    }
}

/// The program header keeps its range, with program headers of this size in all.
fn keeps_range(plain: &Plain, moved: &[Part], piece: &Piece, table_size: u128) -> bool {
    match anchor_of(plain, piece) {
        Anchor::Itself => true,
        Anchor::HeaderTable => piece.in_file == table_size && piece.in_memory == piece.in_file,
        Anchor::OneSection(part) => {
            !is_moved(moved, part)
                && part.is_loaded()
                && part.offset == piece.offset
                && part.address == piece.address
                && part.size == piece.in_file
        }
        Anchor::Notes => !is_any_under(plain, moved, piece, true),
    }
}

/// Where the file parts end that stay.
fn kept_end(plain: &Plain, moved: &[Part], table_size: u128) -> u128 {
    let mut end = plain.facts.file_header;
    for piece in &plain.pieces {
        let is_inside = piece.file_end() <= plain.facts.source_size;
        if is_inside && keeps_range(plain, moved, piece, table_size) {
            end = end.max(piece.file_end());
        }
    }
    end
}

/// Where memory ends.
fn memory_end(plain: &Plain) -> u128 {
    let mut end = 0;
    for piece in &plain.pieces {
        if piece.is_loaded() {
            end = piece.memory_end().max(end);
        }
    }
    for part in &plain.parts {
        let is_left = part.is_in_file() && !plain.shows(part.offset, part.old, part.address);
        if part.takes_memory() && part.old != 0 && !is_left {
            end = part.address.saturating_add(part.old).max(end);
        }
    }
    end
}

/// The pages of a machine, where nothing tells their size.
fn default_page_size(machine: u16) -> u128 {
    match machine {
        EM_ALPHA | EM_IA_64 | EM_MIPS | EM_PPC | EM_PPC64 => 65536,
        EM_AARCH64 | EM_TILEGX | EM_LOONGARCH => 65536,
        EM_SPARC | EM_SPARCV9 => 8192,
        _ => 4096,
    }
}

/// The alignment of what is loaded.
fn load_alignment(plain: &Plain) -> u128 {
    if let Some(size) = plain.facts.page_size {
        return size;
    }
    let mut found = 0;
    for piece in &plain.read_pieces {
        if piece.is_loaded() {
            found = piece.align.max(found);
        }
    }
    if found == 0 {
        default_page_size(plain.facts.machine)
    } else {
        found
    }
}

/// Puts the sections that need these flags one behind the other, from an offset and an address on, and tells where the
/// last one ends in the file.
fn add_slots(
    standing: &mut Standing,
    plain: &Plain,
    moved: &[Part],
    p_flags: u32,
    (start, address): (u128, u128),
) -> Result<u128, AllocError> {
    let (mut offset, mut at) = (start, address);
    for part in moved {
        if plain.segment_flags(part) == p_flags {
            let next = next_multiple(at, part.align);
            offset = offset.saturating_add(next.saturating_sub(at));
            add_slot(standing, part, offset, next)?;
            offset = offset.saturating_add(part.size);
            at = next.saturating_add(part.size);
        }
    }
    Ok(offset)
}

/// Puts a section at an offset and an address.
fn add_slot(
    standing: &mut Standing,
    part: &Part,
    offset: u128,
    address: u128,
) -> Result<(), AllocError> {
    standing.slots.push(Slot {
        position: part.position,
        offset,
        address,
        size: part.size,
    })?;
    Ok(())
}

/// Adds a loaded segment of these flags from an offset and an address on, with the sections that need it, and tells how
/// many bytes it has.
fn add_load(
    standing: &mut Standing,
    plain: &Plain,
    moved: &[Part],
    align: u128,
    p_flags: u32,
    (start, address): (u128, u128),
) -> Result<u128, AllocError> {
    let end = add_slots(standing, plain, moved, p_flags, (start, address))?;
    let size = end.saturating_sub(start);
    standing.loads.push(Piece {
        p_type: PT_LOAD,
        p_flags,
        offset: start,
        address,
        physical: address,
        in_file: size,
        in_memory: size,
        align,
    })?;
    Ok(size)
}

/// Puts the sections that aren't loaded one behind the other, and tells where the last one ends.
fn add_unloaded(standing: &mut Standing, plain: &Plain, start: u128) -> Result<u128, AllocError> {
    let mut end = start;
    for part in &plain.parts {
        let is_reserved = part.position == 0 && part.size == 0;
        if part.is_in_file() && !part.is_loaded() && !is_reserved {
            let offset = next_multiple(end, part.align);
            add_slot(standing, part, offset, part.address)?;
            end = offset.saturating_add(part.size);
        }
    }
    Ok(end)
}

/// Puts the other sections where they were.
fn add_others(standing: &mut Standing, plain: &Plain, end: u128) -> Result<(), AllocError> {
    for part in &plain.parts {
        if slot_at(&standing.slots, part.position).is_none() {
            let is_behind = part.is_in_file() && part.size == 0 && end < part.offset;
            let offset = if is_behind { end } else { part.offset };
            add_slot(standing, part, offset, part.address)?;
        }
    }
    Ok(())
}

/// Where the section at a position stands, by the first slot for it; `None` where there is none.
pub fn slot_at(slots: &[Slot], position: usize) -> Option<Slot>
    ensures { result ≡ find (λ s. s.position == position) slots.now }
{
    for slot in slots {
        if slot.position == position {
            return Some(*slot);
        }
    }
    None
}

/// Adds the segments that the sections need that move, for each set of flags in the order of the first sections that
/// need it, and tells where the last one ends in the file.
fn add_loads(
    standing: &mut Standing,
    plain: &Plain,
    moved: &[Part],
    start: u128,
) -> Result<u128, AllocError> {
    let align = load_alignment(plain);
    let (mut end, mut memory) = (start, memory_end(plain));
    for (i, part) in moved.iter().enumerate() {
        let p_flags = plain.segment_flags(part);
        if is_first_of_flags(plain, moved, i, p_flags) {
            let behind = end.checked_rem(align).unwrap_or(end);
            let address = next_multiple(memory, align).saturating_add(behind);
            let size = add_load(standing, plain, moved, align, p_flags, (end, address))?;
            end = end.saturating_add(size);
            memory = address.saturating_add(size);
        }
    }
    Ok(end)
}

/// Puts the program header table behind the loaded parts where no loaded segment had it, and tells where that ends.
fn place_table(standing: &mut Standing, plain: &Plain, table_size: u128, end: u128) -> u128 {
    if table_load(plain).is_some() {
        return end;
    }
    standing.e_phoff = next_multiple(end, plain.facts.word);
    standing.e_phoff.saturating_add(table_size)
}

/// Puts everything where it stands.
fn place_all(
    standing: &mut Standing,
    plain: &Plain,
    moved: &[Part],
    table_size: u128,
) -> Result<(), AllocError> {
    let kept = kept_end(plain, moved, table_size);
    let end = add_loads(standing, plain, moved, kept)?;
    let end = place_table(standing, plain, table_size, end);
    let end = add_unloaded(standing, plain, end)?;
    add_others(standing, plain, end)?;
    standing.e_shoff = next_multiple(end, plain.facts.word);
    Ok(())
}

/// Where everything stands once these sections move, with program headers of this size in all.
pub(crate) fn standing_of(
    alloc: Global,
    plain: &Plain,
    moved: &[Part],
    table_size: u128,
) -> Result<Standing, AllocError> {
    let mut standing = Standing {
        loads: Vec::new(alloc),
        slots: Vec::new(alloc),
        e_phoff: plain.facts.e_phoff,
        e_shoff: 0,
    };
    place_all(&mut standing, plain, moved, table_size)?;
    Ok(standing)
}
