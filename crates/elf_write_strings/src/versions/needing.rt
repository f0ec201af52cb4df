ghost use Rattle.std.specs.Prelude.{IfOk};
ghost use Rattle.std.specs.List.{All};
ghost use Rattle.elf_write_strings.specs.VersionPlaces.{AreNamesAt, AreNeedsAt, HasMore, IsNeedAt, TellsName, TellsNeed};

use crate::versions::placing::place_text;
use elf_format::records::NeedNameNumbers;
use elf_format::versions::RawNeeds;
use elf_image::{VersionNeed, VersionNeedName};
use elf_tables::Finished;
use std::alloc::AllocError;

// Places the names of needed versions where their records say.
fn place_need_names<'t>(
    table: &mut Finished<'t>,
    versions: &'t [VersionNeedName<'_>],
    records: &[NeedNameNumbers],
) -> Result<(), AllocError>
    requires { AreNamesAt table.old.bytes versions.now records.now }
    ensures more { IfOk result (λ _. HasMore table.old table.new) }
    ensures told { IfOk result (λ _. All (TellsName table.new) versions.entry.now) }
{
    for (i, version) in versions.iter().enumerate() {
        place_text(table, version.name.as_slice(), records[i].name)?;
    }
    Ok(())
}

// Places the texts of the versions needed of a library where their records say.
fn place_need<'t>(
    table: &mut Finished<'t>,
    need: &'t VersionNeed<'_>,
    numbers: &RawNeeds,
) -> Result<(), AllocError>
    requires { IsNeedAt table.old.bytes need.now numbers.now }
    ensures more { IfOk result (λ _. HasMore table.old table.new) }
    ensures told { IfOk result (λ _. TellsNeed table.new need.entry.now) }
{
    place_text(table, need.file.as_slice(), numbers.file)?;
    place_need_names(table, &need.versions, &numbers.versions)?;
    Ok(())
}

// Places the texts of needed versions where their records say.
pub(crate) fn place_needs<'t>(
    table: &mut Finished<'t>,
    needs: &'t [VersionNeed<'_>],
    records: &[RawNeeds],
) -> Result<(), AllocError>
    requires { AreNeedsAt table.old.bytes needs.now records.now }
    ensures more { IfOk result (λ _. HasMore table.old table.new) }
    ensures told { IfOk result (λ _. All (TellsNeed table.new) needs.entry.now) }
{
    for (i, need) in needs.iter().enumerate() {
        place_need(table, need, &records[i])?;
    }
    Ok(())
}
