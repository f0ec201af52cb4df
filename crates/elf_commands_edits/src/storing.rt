//! Differences made in stores.
ghost use Rattle.std.specs.Prelude.{◌+◌, ◌<◌, ◌≤◌, ◌^◌, All, IfErr, IsTrue, OnOk, length};
ghost use Rattle.byte_store.specs.Causes.{IsNotWritten};
ghost use Rattle.byte_store.specs.Composed.{IsNotMade, made_of, owned_patches};
ghost use Rattle.byte_store.specs.Known.{Becomes, HasLength, Stays};
ghost use Rattle.byte_store.specs.Laid.{LiesIn};
ghost use Rattle.elf_commands_edits.specs.Storing.{IsNothing};

use byte_store::{Difference, Left, ReplaceError, Store, WriteError, make_difference};
use std::alloc::Global;

/// Makes a difference in a store that has so many bytes, as `make_difference` does; one that changes nothing
/// opens the store for writing too.
pub fn make_opened<S: Store>(
    alloc: Global,
    store: &mut S,
    old_length: u64,
    difference: &Difference,
) -> Result<(), ReplaceError>
    requires old { HasLength (S.contents store.old) old_length }
    requires fits { old_length + length difference.now.growth.items < 2 ^ 64 }
    requires inside { All (LiesIn (old_length + length difference.now.growth.items))
        (owned_patches difference.now.pieces.items) }
    requires end { difference.now.new_length ≤ old_length + length difference.now.growth.items }
    ensures ok { OnOk result (Becomes (λ source. made_of source difference.now)
        (S.contents store.old) (S.contents store.new)) }
    ensures err { IfErr result (IsNotMade S.contents difference.now store.old store.new) }
    ensures idle { IsNothing old_length difference.now
        → OnOk result (Stays (S.contents store.old) (S.contents store.new)) }
    ensures opens { IsNothing old_length difference.now
        → OnOk result (IsTrue (S.is_writable store.new)) }
    ensures cause { IfErr result (IsNotWritten S.may_fail_write S.may_take_none
        (S.failed store.old) (S.failed store.new)) }
{
    if !is_nothing(old_length, difference) {
        return make_difference(alloc, store, old_length, difference);
    }
    match store.open_for_writing() {
        Ok(()) => Ok(()),
        Err(error) => Err(ReplaceError::Write(WriteError {
            left: Left::Old,
            error,
        })),
    }
}

/// Whether a difference changes nothing of so many bytes.
fn is_nothing(old_length: u64, difference: &Difference) -> bool
    ensures yes { IsTrue result → IsNothing old_length difference.now }
    ensures no { IsNothing old_length difference.now → IsTrue result }
{
    difference.growth.is_empty()
        && difference.pieces.is_empty()
        && old_length <= difference.new_length as u64
}
