//! Slots that are made anew after an edit.
ghost use Rattle.std.specs.Prelude.{◌≡◌, ◌+◌, ◌*◌, ◌<◌, ◌≤◌, ◌++◌, ◌^◌, All, IfOk, OnErr, OnOk, length};
ghost use Rattle.macho_signatures.specs.Pages.{hash_bytes};
ghost use Rattle.macho_signatures.specs.Renewed.{IsRenewed, SlotLies, is_touched, laid, meets_page, renewed_slots, slot_for, slots_in, with_slot};
ghost use Rattle.macho_signatures.specs.Signature.{ArePlaced, HasPages, LiesIn};

use crate::directory::Directory;
use crate::pages::PageHash;
use crate::signature::Signature;
use std::alloc::{AllocError, Global};

/// Bytes of a file: those from `begin` on that stand before `end`.
#[derive(Clone, Copy, Debug, PartialEq, Eq)]
pub struct ByteRange {
    /// Where the range begins.
    pub begin: usize,
    /// Where the range ends.
    pub end: usize,
}

/// A slot with what is to stand in it.
#[derive(Clone, Copy, Debug, PartialEq, Eq)]
pub struct Slot {
    /// Where the slot stands in the thin file.
    pub place: usize,
    /// The hash of the slot's page.
    pub hash: PageHash,
}

impl Directory {
    /// Whether some byte of the ranges lies in a page. A byte at the limit or behind it lies in none.
    #[tactic(auto, unfolding(crate::specs::Renewed::is_touched))]
    pub fn is_touched(&self, touched: &[ByteRange], page: usize) -> bool
        requires pages { HasPages self.now }
        requires inside { page < self.now.count }
        ensures { result ≡ is_touched self.now touched.now page }
    {
        let start = self.page_start(page);
        let end = self.page_end(page);
        touched
            .iter()
            .any(|range| range.begin.max(start) < range.end.min(end))
    }

    // Appends the slots of the pages that are touched, with the hashes of these bytes.
    fn push_slots(
        &self,
        slots: &mut Vec<Slot>,
        touched: &[ByteRange],
        bytes: &[u8],
    ) -> Result<(), AllocError>
        requires { LiesIn (length bytes.now) self.now }
        ensures { OnOk result
            (slots.new.items ≡ slots.old.items ++ slots_in self.now touched.now bytes.now) }
    {
        for page in 0..self.count as usize {
            if self.is_touched(touched, page) {
                slots.push(Slot {
                    place: self.slot_place(page),
                    hash: self.page_hash(bytes, page),
                })?;
            }
        }
        Ok(())
    }
}

impl Signature {
    /// The slots of the pages that an edit touched, in each directory, with the hashes of the bytes as they are after the edit.
    /// `touched` are the bytes that it may have changed. Time grows with the pages times the ranges, and with the bytes of
    /// the pages that are touched.
    pub fn renewed_slots(
        &self,
        alloc: Global,
        bytes: &[u8],
        touched: &[ByteRange],
    ) -> Result<Vec<Slot>, AllocError>
        requires { ArePlaced self.now.start (length bytes.now) self.now.directories.items }
        ensures { IfOk result (λ slots.
            slots.items ≡ renewed_slots self.now.directories.items touched.now bytes.now) }
    {
        let mut slots = Vec::new(alloc);
        for directory in &self.directories {
            directory.push_slots(&mut slots, touched, bytes)?;
        }
        Ok(slots)
    }
}

// Lays a slot over bytes.
#[tactic(auto, unfolding(crate::specs::Renewed::with_slot))]
fn lay_slot(bytes: &mut [u8], slot: &Slot)
    requires { SlotLies (length bytes.old) slot.now }
    ensures { bytes.new ≡ with_slot slot.now bytes.old }
{
    let hash = slot.hash.as_slice();
    bytes[slot.place..slot.place + hash.len()].copy_from_slice(hash);
}

/// Lays slots over bytes, in order.
pub fn lay_slots(bytes: &mut [u8], slots: &[Slot])
    requires { All (SlotLies (length bytes.old)) slots.now }
    ensures { bytes.new ≡ laid slots.now bytes.old }
{
    for slot in slots {
        lay_slot(bytes, slot);
    }
}

impl Signature {
    /// Makes the slots of the pages that an edit touched anew, in each directory: `bytes` are those of the file after the edit,
    /// `touched` those that it may have changed. Every other byte stays. An error leaves all bytes.
    pub fn renew(
        &self,
        alloc: Global,
        bytes: &mut [u8],
        touched: &[ByteRange],
    ) -> Result<(), AllocError>
        requires { ArePlaced self.now.start (length bytes.old) self.now.directories.items }
        ensures ok { OnOk result
            (IsRenewed self.now.directories.items touched.now bytes.old bytes.new) }
        ensures err { OnErr result (bytes.new ≡ bytes.old) }
    {
        let slots = self.renewed_slots(alloc, bytes, touched)?;
        lay_slots(bytes, &slots);
        Ok(())
    }
}
