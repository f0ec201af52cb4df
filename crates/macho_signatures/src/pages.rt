//! Pages, their hashes, and whether their slots hold the hashes.
ghost use Rattle.std.specs.Prelude.{◌≡◌, ◌+◌, ◌-◌, ◌*◌, ◌^◌, ◌<◌, ◌≤◌, ◌++◌, All, IfOk, OnOk, length};
ghost use Rattle.std.specs.List.{list_all};
ghost use Rattle.macho_signatures.specs.Directory.{hash_size};
ghost use Rattle.macho_signatures.specs.Pages.{do_pages_fit, hash_bytes, hash_of, is_fit, page_end, page_hash, page_of, page_start, pages_of, slot_of, slot_place, unfit_from, unfit_in};
ghost use Rattle.macho_signatures.specs.Signature.{ArePlaced, HasPages, LiesIn, slots_end};

use crate::directory::{Directory, HashKind};
use crate::signature::Signature;
use sha1::Sha1;
use sha2::{Digest, Sha256};
use std::alloc::{AllocError, Global};

/// The hash of a page.
#[derive(Clone, Copy, Debug, PartialEq, Eq)]
pub enum PageHash {
    /// By SHA-1.
    Sha1([u8; 20]),
    /// By SHA-256.
    Sha256([u8; 32]),
}

impl PageHash {
    /// The bytes of the hash, as they stand in a slot.
    pub fn as_slice(&self) -> &[u8]
        ensures { result.now ≡ hash_bytes self.now }
    {
        match self {
            PageHash::Sha1(hash) => hash,
            PageHash::Sha256(hash) => hash,
        }
    }
}

impl HashKind {
    /// The hash of bytes.
    pub fn hash(self, bytes: &[u8]) -> PageHash
        ensures { result ≡ hash_of self bytes.now }
    {
        match self {
            HashKind::Sha1 => PageHash::Sha1(Sha1::digest(bytes)),
            HashKind::Sha256 => PageHash::Sha256(Sha256::digest(bytes)),
        }
    }
}

/// A page whose slot doesn't hold its hash.
#[derive(Clone, Copy, Debug, PartialEq, Eq)]
pub struct UnfitPage {
    /// The number of the directory, from 0 on in the order of the signature.
    pub directory: usize,
    /// The number of the page, from 0 on.
    pub page: usize,
}

impl Directory {
    /// Where a page begins.
    pub fn page_start(&self, page: usize) -> usize
        requires pages { HasPages self.now }
        requires inside { page < self.now.count }
        ensures value { result ≡ page_start self.now page }
        ensures below { result < self.now.limit }
    {
        page * self.page_size as usize
    }

    /// Where a page ends: the last one ends at the limit.
    pub fn page_end(&self, page: usize) -> usize
        requires pages { HasPages self.now }
        requires inside { page < self.now.count }
        ensures value { result ≡ page_end self.now page }
        ensures filled { page_start self.now page < result }
        ensures below { result ≤ self.now.limit }
    {
        let start = self.page_start(page);
        let limit = self.limit as usize;
        let size = self.page_size as usize;
        if limit - start < size {
            limit
        } else {
            start + size
        }
    }

    /// The bytes of a page.
    pub fn page<'b>(&self, bytes: &'b [u8], page: usize) -> &'b [u8]
        requires lies { LiesIn (length bytes.now) self.now }
        requires inside { page < self.now.count }
        ensures { result.now ≡ page_of self.now page bytes.now }
    {
        &bytes[self.page_start(page)..self.page_end(page)]
    }

    /// Where the slot of a page stands.
    pub fn slot_place(&self, page: usize) -> usize
        requires short { slots_end self.now < 2 ^ 64 }
        requires inside { page < self.now.count }
        ensures value { result ≡ slot_place self.now page }
        ensures within { result + hash_size self.now.hash ≤ slots_end self.now }
    {
        self.slots + page * self.hash.size()
    }

    /// The bytes in the slot of a page.
    pub fn slot<'b>(&self, bytes: &'b [u8], page: usize) -> &'b [u8]
        requires lies { LiesIn (length bytes.now) self.now }
        requires inside { page < self.now.count }
        ensures { result.now ≡ slot_of self.now page bytes.now }
    {
        let place = self.slot_place(page);
        &bytes[place..place + self.hash.size()]
    }

    /// The hash of a page.
    pub fn page_hash(&self, bytes: &[u8], page: usize) -> PageHash
        requires lies { LiesIn (length bytes.now) self.now }
        requires inside { page < self.now.count }
        ensures { result ≡ page_hash self.now page bytes.now }
    {
        self.hash.hash(self.page(bytes, page))
    }

    /// Whether the slot of a page holds its hash.
    pub fn is_fit(&self, bytes: &[u8], page: usize) -> bool
        requires lies { LiesIn (length bytes.now) self.now }
        requires inside { page < self.now.count }
        ensures { result ≡ is_fit self.now bytes.now page }
    {
        self.slot(bytes, page) == self.page_hash(bytes, page).as_slice()
    }

    // Appends the pages whose slots don't hold their hashes.
    fn push_unfit(
        &self,
        pages: &mut Vec<UnfitPage>,
        number: usize,
        bytes: &[u8],
    ) -> Result<(), AllocError>
        requires { LiesIn (length bytes.now) self.now }
        ensures { OnOk result
            (pages.new.items ≡ pages.old.items ++ unfit_in number self.now bytes.now) }
    {
        for page in 0..self.count as usize {
            if !self.is_fit(bytes, page) {
                pages.push(UnfitPage {
                    directory: number,
                    page,
                })?;
            }
        }
        Ok(())
    }

    // Whether the slot of each page holds its hash.
    fn do_pages_fit(&self, bytes: &[u8]) -> bool
        requires { LiesIn (length bytes.now) self.now }
        ensures { result ≡ list_all (is_fit self.now bytes.now) (pages_of self.now) }
    {
        for page in 0..self.count as usize {
            if !self.is_fit(bytes, page) {
                return false;
            }
        }
        true
    }
}

impl Signature {
    /// The pages whose slots don't hold their hashes, by directories and then by pages.
    pub fn unfit_pages(&self, alloc: Global, bytes: &[u8]) -> Result<Vec<UnfitPage>, AllocError>
        requires { ArePlaced self.now.start (length bytes.now) self.now.directories.items }
        ensures { IfOk result (λ pages.
            pages.items ≡ unfit_from 0 self.now.directories.items bytes.now) }
    {
        let mut pages = Vec::new(alloc);
        for number in 0..self.directories.len() {
            self.directories[number].push_unfit(&mut pages, number, bytes)?;
        }
        Ok(pages)
    }

    /// Whether the slot of each page of each directory holds its hash. Takes no memory.
    pub fn do_pages_fit(&self, bytes: &[u8]) -> bool
        requires { ArePlaced self.now.start (length bytes.now) self.now.directories.items }
        ensures { result ≡ do_pages_fit self.now.directories.items bytes.now }
    {
        for directory in &self.directories {
            if !directory.do_pages_fit(bytes) {
                return false;
            }
        }
        true
    }
}
