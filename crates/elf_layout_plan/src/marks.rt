//! Marks of versions that go.
ghost use Rattle.std.specs.Prelude.{◌≡◌, ℕ, ◌&&◌, ◌==◌, false, length, not, IfOk, if◌then◌else◌};
ghost use Rattle.elf_format.specs.Options.{is_some_and};
ghost use Rattle.elf_tables.specs.Loan.{symbols_now};
ghost use Rattle.elf_layout_plan.specs.Needs.{is_version_used};
ghost use Rattle.elf_layout_plan.specs.Staying.{mark_of};

use crate::{SymbolsNow, VersionId};
use std::alloc::{AllocError, Global};

// How many marks there are: one for each index that a version may have.
const INDICES: usize = 65536;

// The mark of a version's index.
pub(crate) fn is_marked(marks: &[bool], index: u16) -> bool
    ensures { result ≡ mark_of marks.now index }
{
    (index as usize) < marks.len() && marks[index as usize]
}

// Gives a version, where there is one, this mark.
fn mark_version(marks: &mut [bool], version: Option<VersionId>, mark: bool)
    requires { length marks.old ≡ INDICES }
    ensures { (index : ℕ) → mark_of marks.new index
        ≡ (if is_some_and (λ v. v.index == index) version then mark else mark_of marks.old index) }
{
    if let Some(version) = version {
        marks[version.index as usize] = mark;
    }
}

// Gives each version that a symbol has this mark.
fn mark_versions(marks: &mut [bool], symbols: SymbolsNow<'_>, mark: bool)
    requires { length marks.old ≡ INDICES }
    ensures { (index : ℕ) → mark_of marks.new index
        ≡ (if is_version_used (symbols_now symbols.entry) index then mark
        else mark_of marks.old index) }
{
    for i in 0..symbols.len() {
        mark_version(marks, symbols.get(i).version, mark);
    }
}

// Marks the versions that some symbol had, and none has now.
fn mark_dropped(marks: &mut [bool], read: SymbolsNow<'_>, now: SymbolsNow<'_>)
    requires long { length marks.old ≡ INDICES }
    requires none { (index : ℕ) → mark_of marks.old index ≡ false }
    ensures { (index : ℕ) → mark_of marks.new index
        ≡ (is_version_used (symbols_now read.entry) index
        && not (is_version_used (symbols_now now.entry) index)) }
{
    mark_versions(marks, read, true);
    mark_versions(marks, now, false);
}

// So many marks, none of them set.
fn no_marks(alloc: Global, count: usize) -> Result<Vec<bool>, AllocError>
    ensures long { IfOk result (λ marks. length marks.items ≡ count) }
    ensures none { IfOk result (λ marks. (index : ℕ) → mark_of marks.items index ≡ false) }
{
    vec![in alloc; false; count]
}

// The marks of the versions that some symbol had, and none has now.
pub(crate) fn dropped_marks(
    alloc: Global,
    read: SymbolsNow<'_>,
    now: SymbolsNow<'_>,
) -> Result<Vec<bool>, AllocError>
    ensures { IfOk result (λ marks. (index : ℕ) → mark_of marks.items index
        ≡ (is_version_used (symbols_now read.entry) index
        && not (is_version_used (symbols_now now.entry) index))) }
{
    let mut marks = no_marks(alloc, INDICES)?;
    mark_dropped(&mut marks, read, now);
    Ok(marks)
}
