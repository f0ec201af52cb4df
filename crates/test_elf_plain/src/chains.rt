ghost use Rattle.std.specs.Prelude.{◌+◌, ◌<◌, ◌≤◌, ◌^◌};
ghost use Rattle.elf_format.specs.Answers.{Gives, chain, step_model};
ghost use Rattle.elf_format.specs.Versions.{definition_at, definition_name_at, need_at, need_name_at};
ghost use Rattle.test_elf_plain.specs.PlainViews.{GoesOn, source_model};

use crate::source::{Source, read_bytes};
use elf_format::form::Form;
use elf_format::numbers::{half_at, word_at};
use elf_format::records::NeedNameNumbers;
use elf_format::versions::{RawDefinition, RawNeeds};
use elf_format::view_fault::ViewFault;
use std::alloc::Global;

// The place of the next record, where there is one more.
fn next_place(place: u128, next: u32, is_last: bool) -> Result<u128, ViewFault>
    requires { place < 2 ^ 100 }
    ensures { GoesOn place next is_last result }
{
    if is_last {
        return Ok(place);
    }
    if next == 0 {
        return Err(ViewFault::Absent);
    }
    Ok(place + next as u128)
}

// A record of a chain, with all that it leads to.
pub(crate) trait Chained: Drop {
    ghost use Rattle.std.specs.Prelude.{ℕ, Option, ◌<◌};
    ghost use Rattle.patch_bytes.specs.Memory.{Memory};
    ghost use Rattle.elf_format.specs.Answers.{Gives, step_model, whole_step};
    ghost use Rattle.elf_format.specs.Versions.{Step};
    ghost use Rattle.elf_format.specs.declared.form.Form.{Form as TheForm};
    ghost use Rattle.test_elf_plain.specs.PlainViews.{source_model};

    ghost limit: { ℕ };

    ghost step: { TheForm → Memory → ℕ → Option (Step Self) };

    // The record, and how far behind it the next one stands.
    fn read(
        alloc: Global,
        form: Form,
        source: &Source<'_>,
        place: u128,
    ) -> Result<(Self, u32), ViewFault>
        requires { place < limit }
        ensures { Gives (step_model (λ x. x)) result
            (whole_step (step form (source_model source.now) place)) };
}

// A name of a defined version.
impl Chained for u32 {
    ghost limit = { 2 ^ 99 };

    ghost step = { definition_name_at };

    #[tactic(auto, unfolding(elf_format::specs::Versions::definition_name_at))]
    fn read(
        alloc: Global,
        form: Form,
        source: &Source<'_>,
        place: u128,
    ) -> Result<(u32, u32), ViewFault> {
        let record = read_bytes(alloc, source, place, 8)?;
        Ok((word_at(form, &record, 0), word_at(form, &record, 4)))
    }
}

// A version needed of a library.
impl Chained for NeedNameNumbers {
    ghost limit = { 2 ^ 99 };

    ghost step = { need_name_at };

    #[tactic(auto, unfolding(elf_format::specs::Versions::need_name_at))]
    fn read(
        alloc: Global,
        form: Form,
        source: &Source<'_>,
        place: u128,
    ) -> Result<(NeedNameNumbers, u32), ViewFault> {
        let record = read_bytes(alloc, source, place, 16)?;
        let name = NeedNameNumbers {
            index: half_at(form, &record, 6),
            name: word_at(form, &record, 8),
            flags: half_at(form, &record, 4),
        };
        Ok((name, word_at(form, &record, 12)))
    }
}

// A defined version.
impl Chained for RawDefinition {
    ghost limit = { 2 ^ 97 };

    ghost step = { definition_at };

    fn read(
        alloc: Global,
        form: Form,
        source: &Source<'_>,
        place: u128,
    ) -> Result<(RawDefinition, u32), ViewFault> {
        let copied = read_bytes(alloc, source, place, 20)?;
        let record = copied.as_slice();
        let count = half_at(form, record, 6);
        let distance = word_at(form, record, 12);
        let start = place + distance as u128;
        let names = read_chain::<u32>(alloc, form, source, count as u64, start)?;
        let definition = RawDefinition {
            index: half_at(form, record, 4),
            flags: half_at(form, record, 2),
            names,
        };
        Ok((definition, word_at(form, record, 16)))
    }
}

// The versions needed of one library.
impl Chained for RawNeeds {
    ghost limit = { 2 ^ 97 };

    ghost step = { need_at };

    fn read(
        alloc: Global,
        form: Form,
        source: &Source<'_>,
        place: u128,
    ) -> Result<(RawNeeds, u32), ViewFault> {
        let copied = read_bytes(alloc, source, place, 16)?;
        let record = copied.as_slice();
        let count = half_at(form, record, 2);
        let distance = word_at(form, record, 8);
        let start = place + distance as u128;
        let versions = read_chain::<NeedNameNumbers>(alloc, form, source, count as u64, start)?;
        let needs = RawNeeds {
            file: word_at(form, record, 4),
            versions,
        };
        Ok((needs, word_at(form, record, 12)))
    }
}

// So many records of a chain, from the first one on.
pub(crate) fn read_chain<T: Chained>(
    alloc: Global,
    form: Form,
    source: &Source<'_>,
    count: u64,
    start: u128,
) -> Result<Vec<T>, ViewFault>
    requires near { start + 2 ^ 96 ≤ T.limit }
    requires within { T.limit ≤ 2 ^ 100 }
    ensures { Gives (λ v. v.items) result
        (chain (T.step form (source_model source.now)) count start) }
{
    let mut made = Vec::new(alloc);
    let mut place = start;
    for i in 0..count {
        let (value, next) = T::read(alloc, form, source, place)?;
        made.push(value)?;
        place = next_place(place, next, i + 1 == count)?;
    }
    Ok(made)
}
