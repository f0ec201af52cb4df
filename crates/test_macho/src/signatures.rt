//! Code signatures: how they are read, why they are refused, and what is made anew after an edit.

mod faults;
mod file;
mod pages;

use crate::support::debug_text;
use macho_signatures::{SignatureFault, read_signature};
use std::alloc::Global;

// What is looked at in a signature.
#[derive(Clone, Copy)]
enum What {
    // That the signature is accepted.
    Nothing,
    // All of the signature.
    Whole,
    // Whether no identity signed.
    IsAdhoc,
    // The pages that don't fit, and whether all fit.
    Pages,
}

// What a signature shows that begins there in a file and has so many bytes.
fn shown(
    alloc: Global,
    bytes: &[u8],
    dataoff: u32,
    datasize: u32,
    what: What,
) -> Result<String, SignatureFault> {
    let found = read_signature(alloc, bytes, dataoff, datasize)?;
    Ok(match what {
        What::Nothing => String::from_str(alloc, "accepted")?,
        What::Whole => debug_text(alloc, &found)?,
        What::IsAdhoc => debug_text(alloc, &found.is_adhoc())?,
        What::Pages => {
            let fit = found.do_pages_fit(bytes);
            debug_text(alloc, &(found.unfit_pages(alloc, bytes)?, fit))?
        }
    })
}
