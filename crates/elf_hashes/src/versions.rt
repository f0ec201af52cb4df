//! The versions of symbols in an order.
ghost use Rattle.std.specs.Prelude.{◌≡◌, All, false, is_some, true, IfOk, IsTrue, MatchResult};
ghost use Rattle.std.specs.List.{list_any};
ghost use Rattle.elf_image_symbols.specs.Loan.{symbols_now};
ghost use Rattle.elf_tables.specs.declared.fault.TableFault.TheVariants.{NumberTooLarge};
ghost use Rattle.elf_tables.specs.VersionRecords.{is_index_too_large};
ghost use Rattle.elf_hashes.specs.Found.{ArePlaces, in_order};
ghost use Rattle.elf_hashes.specs.Versions.{AreVersionsOf, versions_of};

use elf_format::form::Form;
use elf_format::version_id::VersionId;
use elf_image_symbols::SymbolsNow;
use elf_tables::{TableFault, build_versym as build_versions};
use std::alloc::{AllocError, Global};

// The versions of symbols in an order, of those that have one.
fn versions(
    alloc: Global,
    symbols: SymbolsNow<'_>,
    order: &[usize],
) -> Result<Vec<VersionId>, AllocError>
    requires { ArePlaces (symbols_now symbols) order.now }
    ensures { IfOk result (λ ids. ids.items
        ≡ versions_of (in_order (symbols_now symbols.entry) order.now)) }
{
    let mut ids = Vec::with_capacity(alloc, order.len())?;
    for i in order {
        let symbol = symbols.get(*i);
        match symbol.version {
            Some(id) => ids.push(id)?,
            None => {}
        }
    }
    Ok(ids)
}

/// The versions of symbols in an order, each of which has one (GNU symbol versioning, `.gnu.version`). `NumberTooLarge`
/// where an index is past its 15 bits.
pub fn build_versym(
    alloc: Global,
    symbols: SymbolsNow<'_>,
    order: &[usize],
    form: Form,
) -> Result<Vec<u8>, TableFault>
    requires places { ArePlaces (symbols_now symbols) order.now }
    requires versions { All (λ y. IsTrue (is_some y.version)) (symbols_now symbols) }
    ensures { let ys = in_order (symbols_now symbols.entry) order.now in MatchResult result
        (λ table. AreVersionsOf form ys table.items
        × (list_any is_index_too_large (versions_of ys) ≡ false))
        (λ fault. fault ≡ NumberTooLarge
        → list_any is_index_too_large (versions_of ys) ≡ true) }
{
    let ids = versions(alloc, symbols, order)?;
    let table = build_versions(alloc, ids.as_slice(), form.order)?;
    Ok(table)
}
