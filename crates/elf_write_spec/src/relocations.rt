//! The relocations of a section.
ghost use Rattle.std.specs.Prelude.{◌≡◌, ◌↔◌, length, false, true, IfOk, IsTrue, MatchResult};
ghost use Rattle.elf_tables.specs.declared.fault.TableFault.TheVariants.{NumberTooLarge};
ghost use Rattle.elf_write_spec.specs.Renumbered.{AreRenumbered, do_relocations_fit as do_all_fit, are_symbols_below};

use crate::entry::{does_symbol_fit, push_renumbered};
use elf_format::form::Form;
use elf_tables::TableFault;
use std::alloc::{AllocError, Global};

/// Whether the new number of each symbol that a section's relocations name fits its field (gABI, Relocation, `r_info`): 24
/// bits in 32-bit files, 32 bits in 64-bit files. `kind` is the section's type, `SHT_REL` or `SHT_RELA`; `numbers` has a new
/// number for each symbol that is named, by its old one. Takes no memory.
pub fn do_relocations_fit(form: Form, kind: u32, content: &[u8], numbers: &[u32]) -> bool
    requires { IsTrue (are_symbols_below form kind (length numbers.now) content.now) }
    ensures { result ≡ do_all_fit form kind numbers.now content.now }
{
    let size = form.relocation_size(kind);
    let mut rest = content;
    for _ in 0..content.len() / size {
        let (entry, after) = rest.split_at(size);
        if !does_symbol_fit(form, entry, numbers) {
            return false;
        }
        rest = after;
    }
    true
}

// The bytes with the new numbers, where each fits.
fn renumber(
    alloc: Global,
    form: Form,
    kind: u32,
    content: &[u8],
    numbers: &[u32],
) -> Result<Vec<u8>, AllocError>
    requires named { IsTrue (are_symbols_below form kind (length numbers.now) content.now) }
    requires fit { IsTrue (do_all_fit form kind numbers.now content.now) }
    ensures { IfOk result (λ bytes. AreRenumbered form kind numbers.now content.now bytes.items) }
{
    let size = form.relocation_size(kind);
    let mut bytes = Vec::with_capacity(alloc, content.len())?;
    let mut rest = content;
    for _ in 0..content.len() / size {
        let (entry, after) = rest.split_at(size);
        push_renumbered(&mut bytes, form, entry, numbers)?;
        rest = after;
    }
    bytes.extend_from_slice(rest)?;
    Ok(bytes)
}

/// The bytes of a section of relocations once its symbols have other numbers (gABI, Relocation, `r_info`): each relocation
/// names `numbers[symbol]` in place of `symbol`, and symbol 0 stays 0. All else stays, also what lies behind the last whole
/// relocation. `kind` is the section's type, `SHT_REL` or `SHT_RELA`; `numbers` has a number for each symbol that is named.
/// `NumberTooLarge` where one doesn't fit its field, as `do_relocations_fit` tells.
pub fn renumber_relocations(
    alloc: Global,
    form: Form,
    kind: u32,
    content: &[u8],
    numbers: &[u32],
) -> Result<Vec<u8>, TableFault>
    requires { IsTrue (are_symbols_below form kind (length numbers.now) content.now) }
    ensures { let fit = do_all_fit form kind numbers.now content.now in MatchResult result
        (λ bytes. AreRenumbered form kind numbers.now content.now bytes.items × (fit ≡ true))
        (λ fault. (fault ≡ NumberTooLarge) ↔ (fit ≡ false)) }
{
    if !do_relocations_fit(form, kind, content, numbers) {
        return Err(TableFault::NumberTooLarge);
    }
    let bytes = renumber(alloc, form, kind, content, numbers)?;
    Ok(bytes)
}
