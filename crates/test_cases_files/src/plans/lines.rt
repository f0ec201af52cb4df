//! A plan in lines.
use elf_format::records::SegmentHeader;
use elf_layout::{Plan, SectionPlace};
use std::alloc::AllocError;

/// Puts down a plan in lines.
pub(crate) fn put_plan(plan: &Plan, out: &mut String) -> Result<(), AllocError> {
    put_front(plan, out)?;
    for place in plan.places() {
        put_section(*place, out)?;
    }
    for header in plan.segments() {
        put_segment(header, out)?;
    }
    Ok(())
}

/// Puts down the counts and the header tables of a plan.
fn put_front(plan: &Plan, out: &mut String) -> Result<(), AllocError> {
    let (rounds, looked) = (plan.rounds(), plan.looked());
    let (e_phoff, e_shoff) = (plan.e_phoff(), plan.e_shoff());
    writeln!(
        out,
        "rounds {rounds} looked {looked} headers {e_phoff:x} {e_shoff:x}"
    )
}

/// Puts down the line of a section's place.
fn put_section(s: SectionPlace, out: &mut String) -> Result<(), AllocError> {
    let (kind, address, offset, size) = (s.sh_type, s.sh_addr, s.sh_offset, s.sh_size);
    writeln!(out, "s {kind:x} {address:x} {offset:x} {size:x}")
}

/// Puts down the line of a program header.
fn put_segment(p: &SegmentHeader, out: &mut String) -> Result<(), AllocError> {
    let (kind, flags, offset, align) = (p.p_type, p.p_flags, p.p_offset, p.p_align);
    let (address, physical) = (p.p_vaddr, p.p_paddr);
    let (in_file, in_memory) = (p.p_filesz, p.p_memsz);
    write!(
        out,
        "p {kind:x} {flags:x} {offset:x} {address:x} {physical:x}"
    )?;
    writeln!(out, " {in_file:x} {in_memory:x} {align:x}")
}
