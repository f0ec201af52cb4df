//! The editing calls of an image on its dynamic list.
ghost use Rattle.std.specs.Prelude.{◌≡◌};
ghost use Rattle.elf_image.specs.DynamicList.{tag_at as tag_listed};

use elf_image::Builder;
use elf_image::constants::{DT_NEEDED, DT_RPATH, DT_RUNPATH};
use std::alloc::{AllocError, Global};
use std::io;

/// An edit of a dynamic list.
#[derive(Clone, Copy, Debug)]
enum Edit {
    /// The second entry goes, where it is a DT_RUNPATH.
    DeleteSecond,
    /// Every DT_NEEDED goes.
    RemoveNeeded,
    /// The first entry becomes a DT_RPATH, where it is a DT_NEEDED.
    RetagFirst,
    /// Every DT_RUNPATH becomes a DT_RPATH.
    RetagRunPaths,
}

const EDITS: [Edit; 4] = [
    Edit::DeleteSecond,
    Edit::RemoveNeeded,
    Edit::RetagFirst,
    Edit::RetagRunPaths,
];

/// The tag of an entry of the dynamic list.
fn tag_at(image: &Builder<'_>, i: usize) -> Option<u64>
    ensures { result ≡ tag_listed image.now.entries i }
{
    Some(image.dynamic_data()?.get(i)?.tag())
}

/// Prints the tags of the dynamic list, and whether something was edited.
fn print_tags(rt: &HostRuntime, image: &Builder<'_>) -> io::Result<()> {
    for entry in image.dynamic_data().unwrap_or_default() {
        print!(rt; " {}", entry.tag())?;
    }
    println!(rt; ", changed {}", image.changed())
}

/// Does an edit.
fn change(image: &mut Builder<'_>, edit: Edit) {
    match edit {
        Edit::DeleteSecond => if tag_at(image, 1) == Some(DT_RUNPATH) {
            image.delete_dynamic(1);
        },
        Edit::RemoveNeeded => image.delete_dynamic_tag(DT_NEEDED),
        Edit::RetagFirst => if tag_at(image, 0) == Some(DT_NEEDED) {
            image.retag(0, DT_RPATH);
        },
        Edit::RetagRunPaths => image.retag_all(DT_RUNPATH, DT_RPATH),
    }
}

/// A copy of an image, made again where memory was refused.
fn copy<'d>(alloc: Global, image: &Builder<'d>) -> Result<Builder<'d>, AllocError> {
    match image.try_clone(alloc) {
        Err(_) => image.try_clone(alloc),
        copy => copy,
    }
}

/// Prints what an edit makes of a copy of an image.
fn print_edit(rt: &HostRuntime, image: &Builder<'_>, edit: Edit) -> io::Result<()> {
    print!(rt; "{edit:?}")?;
    let mut copy = copy(rt.alloc(), image)?;
    change(&mut copy, edit);
    print_tags(rt, &copy)
}

/// Prints what each edit makes of a copy of an image, and the image behind them.
pub(crate) fn print_edits(rt: &HostRuntime, image: &Builder<'_>) -> io::Result<()> {
    for edit in EDITS {
        print_edit(rt, image, edit)?;
    }
    print!(rt; "Image")?;
    print_tags(rt, image)
}
