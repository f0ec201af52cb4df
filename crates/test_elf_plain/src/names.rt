ghost use Rattle.patch_bytes.specs.Memory.{text_at};
ghost use Rattle.elf_format.specs.Dynamic.{Entry, shown_entry};
ghost use Rattle.elf_format.specs.Options.{each};
ghost use Rattle.elf_format.specs.Answers.{Gives};
ghost use Rattle.test_elf_plain.specs.PlainViews.{definition_model, entry_viewed, name_model, needs_model, source_model, text_model};
ghost use Rattle.elf_format.specs.Versions.{VersionDefinition, VersionName, VersionNeeds, shown_definition, shown_need, shown_need_name};
ghost use Rattle.std.specs.Prelude.{ℕ, List, map};

use crate::source::{Source, read_text};
use crate::view::{EntryView, ShownDefinition, ShownName, ShownNeeds};
use elf_format::entries::{is_table_tag, is_text_tag};
use elf_format::records::{EntryNumbers, NeedNameNumbers};
use elf_format::versions::{RawDefinition, RawNeeds};
use elf_format::view_fault::ViewFault;
use std::alloc::Global;

// What is shown of a raw value that names texts by where they stand.
pub(crate) trait Shown: Drop {
    ghost use Rattle.std.specs.Prelude.{ℕ, Option};
    ghost use Rattle.patch_bytes.specs.Memory.{Memory};
    ghost use Rattle.elf_format.specs.Answers.{Gives};
    ghost use Rattle.test_elf_plain.specs.PlainViews.{source_model};

    type Raw;

    ghost Shape: { Type 0 };

    // What is shown of a raw value, without where copies of texts lie.
    ghost shape: { Self → Shape };

    ghost shown: { ℕ → Memory → Self.Raw → Option Shape };

    fn show(
        alloc: Global,
        room: usize,
        texts: &Source<'_>,
        raw: &Self::Raw,
    ) -> Result<Self, ViewFault>
        ensures { Gives shape result (shown room (source_model texts.now) raw.now) };
}

impl Shown for Vec<u8> {
    type Raw = u32;

    ghost Shape = { List ℕ };

    ghost shape = { text_model };

    ghost shown = { text_at };

    fn show(
        alloc: Global,
        room: usize,
        texts: &Source<'_>,
        raw: &u32,
    ) -> Result<Vec<u8>, ViewFault> {
        read_text(alloc, room, texts, *raw as u64)
    }
}

impl Shown for ShownDefinition {
    type Raw = RawDefinition;

    ghost Shape = { VersionDefinition };

    ghost shape = { definition_model };

    ghost shown = { shown_definition };

    #[tactic(auto, unfolding(elf_format::specs::Versions::shown_definition))]
    fn show(
        alloc: Global,
        room: usize,
        texts: &Source<'_>,
        raw: &RawDefinition,
    ) -> Result<ShownDefinition, ViewFault> {
        let names = show_each::<Vec<u8>>(alloc, room, texts, &raw.names)?;
        Ok(ShownDefinition {
            index: raw.index,
            flags: raw.flags,
            names,
        })
    }
}

impl Shown for ShownName {
    type Raw = NeedNameNumbers;

    ghost Shape = { VersionName };

    ghost shape = { name_model };

    ghost shown = { shown_need_name };

    #[tactic(auto, unfolding(elf_format::specs::Versions::shown_need_name))]
    fn show(
        alloc: Global,
        room: usize,
        texts: &Source<'_>,
        raw: &NeedNameNumbers,
    ) -> Result<ShownName, ViewFault> {
        let name = read_text(alloc, room, texts, raw.name as u64)?;
        Ok(ShownName {
            index: raw.index,
            name,
            flags: raw.flags,
        })
    }
}

impl Shown for ShownNeeds {
    type Raw = RawNeeds;

    ghost Shape = { VersionNeeds };

    ghost shape = { needs_model };

    ghost shown = { shown_need };

    #[tactic(auto, unfolding(elf_format::specs::Versions::shown_need))]
    fn show(
        alloc: Global,
        room: usize,
        texts: &Source<'_>,
        raw: &RawNeeds,
    ) -> Result<ShownNeeds, ViewFault> {
        let file = read_text(alloc, room, texts, raw.file as u64)?;
        let versions = show_each::<ShownName>(alloc, room, texts, &raw.versions)?;
        Ok(ShownNeeds { file, versions })
    }
}

impl Shown for EntryView {
    type Raw = EntryNumbers;

    ghost Shape = { Entry };

    ghost shape = { entry_viewed };

    ghost shown = { shown_entry };

    #[tactic(auto, unfolding(elf_format::specs::Dynamic::shown_entry))]
    fn show(
        alloc: Global,
        room: usize,
        texts: &Source<'_>,
        raw: &EntryNumbers,
    ) -> Result<EntryView, ViewFault> {
        if is_text_tag(raw.d_tag) {
            let text = read_text(alloc, room, texts, raw.d_value)?;
            Ok(EntryView::Text(raw.d_tag, text))
        } else if is_table_tag(raw.d_tag) {
            Ok(EntryView::Auto(raw.d_tag))
        } else {
            Ok(EntryView::Integer(raw.d_tag, raw.d_value))
        }
    }
}

// What is shown of each raw value.
pub(crate) fn show_each<S: Shown>(
    alloc: Global,
    room: usize,
    texts: &Source<'_>,
    raws: &[S::Raw],
) -> Result<Vec<S>, ViewFault>
    ensures { Gives (λ v. map S.shape v.items) result
        (each (S.shown room (source_model texts.now)) raws.now) }
{
    let mut shown = Vec::new(alloc);
    for raw in raws {
        let one = S::show(alloc, room, texts, raw)?;
        shown.push(one)?;
    }
    Ok(shown)
}
