//! Signatures that are read, and why others are refused.

use super::file::{SIGNED, SIZE, START};
use super::{What, shown};
use crate::support::{debug_text, lay};
use arwen_macho::macho::ByteOrder2;
use macho_signatures::SignatureFault;
use std::alloc::Global;

// What the file's signature shows.
const SHOWN: &str = "Signature { start: 12, directories: [\
Directory { version: 131073, flags: 2, hash: Sha1, page_size: 4, limit: 10, count: 3, slots: 114, \
identifier: 92, identifier_len: 1 }, \
Directory { version: 131073, flags: 2, hash: Sha256, page_size: 4, limit: 10, count: 3, slots: 252, \
identifier: 218, identifier_len: 1 }], is_signed: false }";

// The file with a word put at a place of the signature.
fn changed(at: usize, word: u32) -> [u8; 378] {
    let mut bytes = *SIGNED;
    lay(&mut bytes, at.saturating_add(12), &[word], ByteOrder2::Big);
    bytes
}

// A place of the signature, the word that is put there, what is looked at then, and what it shows or why it is refused.
const CHANGES: &[(usize, u32, What, &str)] = &[
    // The signature as it is.
    (0, 0xfade_0cc0, What::Whole, SHOWN),
    // How long the identity's message is.
    (340, 8, What::IsAdhoc, "true"),
    (340, 9, What::IsAdhoc, "false"),
    (340, 30, What::IsAdhoc, "false"),
    // Without the identity's message, or with another blob.
    (28, 5, What::Nothing, "accepted"),
    (8, 2, What::Nothing, "accepted"),
    // Flags, special slots of which there are none, the spare field.
    (36 + 12, 0x2_0002, What::Nothing, "accepted"),
    (36 + 24, 0, What::Nothing, "accepted"),
    (36 + 40, 9, What::Nothing, "accepted"),
    // Later versions have other fields where the identifier stands here: only two have room.
    (20, 0x1004, What::Nothing, "accepted"),
    (4, 366, What::Nothing, "accepted"),
    (336 + 8, 1, What::Nothing, "accepted"),
    // Others are refused.
    (0, 0xfade_0cc1, What::Nothing, "NoSuperBlob"),
    (4, 0, What::Nothing, "BadLength"),
    (4, 11, What::Nothing, "BadLength"),
    (4, 367, What::Nothing, "BadLength"),
    (4, u32::MAX, What::Nothing, "BadLength"),
    (8, 45, What::Nothing, "BadIndex"),
    (8, 0x2000_0000, What::Nothing, "BadIndex"),
    (8, u32::MAX, What::Nothing, "BadIndex"),
    // Blobs: where they begin.
    (16, 35, What::Nothing, "BadBlob"),
    (16, 359, What::Nothing, "BadBlob"),
    (16, 367, What::Nothing, "BadBlob"),
    (16, u32::MAX, What::Nothing, "BadBlob"),
    // Lengths.
    (40, 7, What::Nothing, "BadBlob"),
    (40, 331, What::Nothing, "BadBlob"),
    (40, u32::MAX, What::Nothing, "BadBlob"),
    // The first two overlap, by one byte and wholly.
    (40, 127, What::Nothing, "BadBlob"),
    (24, 36, What::Nothing, "BadBlob"),
    // An entry more takes what stands in the index's place.
    (8, 4, What::Nothing, "BadBlob"),
    // Directories.
    (36, 0xfade_0c01, What::Nothing, "BadDirectory"),
    (44, 0x2_0000, What::Nothing, "BadDirectory"),
    (44, 0x2_0601, What::Nothing, "BadDirectory"),
    (44, 0x2_0600, What::Nothing, "BadDirectory"),
    // Slots.
    (36 + 16, 63, What::Nothing, "BadDirectory"),
    (36 + 16, 67, What::Nothing, "BadDirectory"),
    (36 + 24, 2, What::Nothing, "BadDirectory"),
    (36 + 24, u32::MAX, What::Nothing, "BadDirectory"),
    // The identifier.
    (36 + 20, 43, What::Nothing, "BadDirectory"),
    // Hashes and pages.
    (36 + 36, 0x1403_0002, What::Nothing, "UnknownHash"),
    (36 + 36, 0x1402_0002, What::Nothing, "UnknownHash"),
    (36 + 36, 0x1301_0002, What::Nothing, "UnknownHash"),
    (36 + 36, 0x1401_0020, What::Nothing, "BadPageSize"),
    (36 + 36, 0x1401_0003, What::Nothing, "BadSlots"),
    (36 + 36, 0x1401_001f, What::Nothing, "BadSlots"),
    (36 + 36, 0x1401_0000, What::Nothing, "BadSlots"),
    (36 + 32, 13, What::Nothing, "BadSlots"),
    (16 - 4, 0x1001, What::Nothing, "NoDirectory"),
];

#[test]
fn accepts_and_refuses_changes(rt: HostRuntime) {
    for (at, word, what, want) in CHANGES {
        let file = changed(*at, *word);
        let row = sure!(&rt; debug_text(rt.alloc(), &(at, word)));
        tells!(&rt; row.as_str(); shown(rt.alloc(), &file, START, SIZE, *what); want);
    }
}

// A part of the file, where its signature begins there and how many bytes it has, and why it is refused.
type Cut = (usize, usize, u32, u32, &'static str);

const CUT: &[Cut] = &[
    // Behind nine bytes, the same signature signs one too many.
    (3, 378, 9, SIZE, "BadLimit"),
    (0, 0, START, SIZE, "Outside"),
    (0, 12, START, SIZE, "Outside"),
    (0, 13, START, SIZE, "Outside"),
    (0, 377, START, SIZE, "Outside"),
    (0, 378, START, 0, "NoSuperBlob"),
    (0, 378, START, 3, "NoSuperBlob"),
    (0, 378, START, 11, "NoSuperBlob"),
    (0, 378, u32::MAX, u32::MAX, "Outside"),
];

#[test]
fn refuses_cut_files(rt: HostRuntime) {
    for (begin, end, dataoff, datasize, want) in CUT {
        let part = SIGNED.get(*begin..*end).unwrap_or(&[]);
        let row = sure!(&rt; debug_text(rt.alloc(), &(begin, end, dataoff, datasize)));
        tells!(&rt; row.as_str(); shown(rt.alloc(), part, *dataoff, *datasize, What::Nothing); want);
    }
}

// What is told of a SuperBlob of 100,000 blobs of 8 bytes, which stand backwards and end to end behind its index, and
// one of this size.
fn blobs(alloc: Global, middle: u32) -> Result<String, SignatureFault> {
    let mut file = vec![in alloc; 0; 1_600_012]?;
    let front = [0xfade_0cc0, 12 + 1_600_000, 100_000];
    lay(&mut file, 0, &front, ByteOrder2::Big);
    for i in 0..100_000u32 {
        let size = if i == 50_000 { middle } else { 8 };
        let at = i as usize * 8 + 12;
        lay(&mut file, at, &[7, 12 + 1_599_992 - 8 * i], ByteOrder2::Big);
        lay(&mut file, at + 800_000, &[0, size], ByteOrder2::Big);
    }
    shown(alloc, &file, 0, 12 + 1_600_000, What::Nothing)
}

#[test]
fn reads_many_blobs(rt: HostRuntime) {
    tells!(&rt; "blobs"; blobs(rt.alloc(), 8); "NoDirectory");
    tells!(&rt; "a long blob"; blobs(rt.alloc(), 9); "BadBlob");
}
