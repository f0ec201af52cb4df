//! Run paths that shrink, in bytes and in stores.
ghost use Rattle.std.specs.Prelude.{IfErr, IfOk, OnOk, length, map, string_bytes};
ghost use Rattle.byte_store.specs.Composed.{IsDifference};
ghost use Rattle.byte_store.specs.Known.{HasLength, IsAll};
ghost use Rattle.elf_commands_edits.specs.ShrinkModel.{answer_model};
ghost use Rattle.elf_edits.specs.Edit.{ShrinkRpath};
ghost use Rattle.elf_commands_lines.specs.ElfAsked.{shrinking};
ghost use Rattle.elf_commands.specs.ElfEngine.{MayFailAs};
ghost use Rattle.elf_commands.specs.ElfStores.{WritesEnd};
ghost use Rattle.elf_commands_edits.specs.Failures.{HasShrinkCause, HasShrinkCauseAt, HasTellCause};
ghost use Rattle.elf_commands.specs.ShrinkRuns.{FailsShrink, FailsShrinkAt, IsQuiet, IsQuietAt, IsShrunkBy, RunsShrink, ShrinksStore, TellsShrink, TellsShrunk};

use crate::elf::opening::open_path;
use crate::elf::shrink_rpath::Args;
use byte_store::Store;
use command_words::{NotDone, OpensOnce, RegularFiles, load};
use elf_commands_edits::files::{CountedWrite, ElfContainer, ProbeAnswer, Sink, write_all_counted};
use elf_commands_edits::laws::lists_are_their_edits;
use elf_commands_edits::{
    ElfCommandError, FileProbe, Probe, Shrunk, StandardError, answers_of, make_opened,
    pieces_by_answers, shrink_image, tell_removed,
};
use elf_image::laws::read_images_hold_parts;
use std::alloc::Global;
use std::io::Write;
use std::rt::Files;

/// The bytes of a file after `shrink-rpath`, or `None` where it stays as it was. What was found for the
/// pairs of `Writer::elf_shrink_questions` is handed in. Once the new bytes are there, the lines of the
/// directories that went go to `out`, in one write.
pub(crate) fn run_shrink<W: Write>(
    alloc: Global,
    bytes: &[u8],
    args: &Args,
    probe: &[ProbeAnswer<'_>],
    out: &mut W,
) -> Result<Option<Vec<u8>>, ElfCommandError>
    ensures ran { IfOk result (λ new. RunsShrink (ShrinkRpath
        (map string_bytes args.now.allowed_rpath_prefixes.items) (map answer_model probe.now))
        bytes.now new (W.contents out.old) (W.contents out.new)) }
    ensures err { IfErr result (TellsShrink W.contents (ShrinkRpath
        (map string_bytes args.now.allowed_rpath_prefixes.items) (map answer_model probe.now))
        bytes.now out.old out.new) }
{
    lists_are_their_edits();
    let mut elf = ElfContainer::parse(alloc, bytes)?;
    match shrink_image(
        alloc,
        &mut elf,
        args.allowed_rpath_prefixes.as_slice(),
        probe,
    ) {
        Ok(removed) => tell_removed(alloc, elf, removed, out),
        Err(error) => {
            drop(elf);
            Err(ElfCommandError::from(error))
        }
    }
}

/// What of a file's bytes differs after `shrink-rpath`, by what is found.
fn shrunk_pieces<P: Probe>(
    alloc: Global,
    bytes: &[u8],
    prefixes: &[String],
    probe: &P,
) -> Result<Shrunk, ElfCommandError>
    ensures makeable { IfOk result (λ made. IsDifference bytes.now made.difference) }
    ensures shrunk { IfOk result (λ made. IsShrunkBy (P.may_find probe.now)
        (map string_bytes prefixes.now) bytes.now made.difference (string_bytes made.text)) }
    ensures err { IfErr result (TellsShrunk (P.may_find probe.now)
        (map string_bytes prefixes.now) bytes.now) }
{
    lists_are_their_edits();
    read_images_hold_parts();
    let elf = ElfContainer::parse(alloc, bytes)?;
    match answers_of(alloc, &elf, probe) {
        Ok(answers) => pieces_by_answers(alloc, elf, prefixes, answers),
        Err(error) => {
            drop(elf);
            Err(ElfCommandError::from(error))
        }
    }
}

/// Shrinks the run paths of the bytes of a store in their place, which are read whole, as `edit_store` edits
/// them. The probe says what stands in their directories. Once what differs is known, the lines of the
/// directories that went go to `out`, in one write, and then the blocks that differ are written. Where nothing
/// went, the store is opened for writing too.
///
/// # Errors
///
/// `Io` with the error of the call of the store, or of the writer, that failed, which it counted, or of those that
/// `load_whole`, `make_difference` and `write_all_counted` make; the others tell why the edit is not made.
pub fn shrink_store<S: Store, P: Probe, W: CountedWrite>(
    alloc: Global,
    store: &mut S,
    args: &Args,
    probe: &P,
    out: &mut W,
) -> Result<(), ElfCommandError>
    ensures shrunk { OnOk result (ShrinksStore (P.may_find probe.now)
        (map string_bytes args.now.allowed_rpath_prefixes.items) (S.contents store.old)
        (S.contents store.new) (W.contents out.old) (W.contents out.new)) }
    ensures err { IfErr result (MayFailAs
        (shrinking (map string_bytes args.now.allowed_rpath_prefixes.items))) }
    ensures left { IfErr result (FailsShrink
        (WritesEnd S.may_fail_write S.may_take_none (S.failed store.old) (S.failed store.new))
        (P.may_find probe.now) (map string_bytes args.now.allowed_rpath_prefixes.items)
        (S.contents store.old) (S.contents store.new)) }
    ensures quiet { IfErr result (IsQuiet (P.may_find probe.now)
        (map string_bytes args.now.allowed_rpath_prefixes.items) W.contents
        (S.contents store.old) out.old out.new) }
    ensures cause { IfErr result (HasShrinkCause S.may_fail_read S.may_fail_write S.may_take_none
        (S.contents store.old) (S.failed store.old) (S.failed store.new)
        (W.failed out.old) (W.failed out.new)) }
{
    let bytes = load(alloc, store)?;
    let prefixes = args.allowed_rpath_prefixes.as_slice();
    shrink_loaded(alloc, store, bytes.as_slice(), prefixes, probe, out)
}

/// Shrinks the run paths in a store that has these bytes.
fn shrink_loaded<S: Store, P: Probe, W: CountedWrite>(
    alloc: Global,
    store: &mut S,
    bytes: &[u8],
    prefixes: &[String],
    probe: &P,
    out: &mut W,
) -> Result<(), ElfCommandError>
    requires whole { IsAll (S.contents store.old) bytes.now }
    requires length { HasLength (S.contents store.old) (length bytes.now) }
    ensures shrunk { OnOk result (ShrinksStore (P.may_find probe.now)
        (map string_bytes prefixes.now) (S.contents store.old)
        (S.contents store.new) (W.contents out.old) (W.contents out.new)) }
    ensures err { IfErr result (MayFailAs (shrinking (map string_bytes prefixes.now))) }
    ensures left { IfErr result (FailsShrink
        (WritesEnd S.may_fail_write S.may_take_none (S.failed store.old) (S.failed store.new))
        (P.may_find probe.now) (map string_bytes prefixes.now)
        (S.contents store.old) (S.contents store.new)) }
    ensures quiet { IfErr result (IsQuiet (P.may_find probe.now) (map string_bytes prefixes.now)
        W.contents (S.contents store.old) out.old out.new) }
    ensures cause { IfErr result (HasTellCause S.may_fail_write S.may_take_none
        (S.failed store.old) (S.failed store.new) (W.failed out.old) (W.failed out.new)) }
{
    let shrunk = shrunk_pieces(alloc, bytes, prefixes, probe)?;
    write_all_counted(shrunk.text.as_bytes(), out)?;
    Ok(make_opened(alloc, store, bytes.len() as u64, &shrunk.difference)?)
}

/// Shrinks the run paths of the store at the command's path, as `shrink_store` does, and hands the store
/// back.
///
/// # Errors
///
/// Those of `shrink_store`, and `Io` with what the opening answered, before any line is told. The store that was opened
/// comes with the error, with what it left there.
pub fn shrink_path<'p, O: OpensOnce<'p>, P: Probe, W: CountedWrite>(
    alloc: Global,
    files: O,
    args: &'p Args,
    probe: &P,
    out: &mut W,
) -> Result<O::Opened, NotDone<O::Opened, ElfCommandError>>
    ensures shrunk { IfOk result (λ store. ShrinksStore (P.may_find probe.now)
        (map string_bytes args.now.allowed_rpath_prefixes.items)
        (O.contents files (string_bytes args.now.path_to_binary))
        (O.Opened.contents store) (W.contents out.old) (W.contents out.new)) }
    ensures err { IfErr result (λ refused. MayFailAs
        (shrinking (map string_bytes args.now.allowed_rpath_prefixes.items)) refused.error) }
    ensures left { IfErr result (λ refused. FailsShrinkAt
        O.Opened.may_fail_write O.Opened.may_take_none O.Opened.failed (P.may_find probe.now)
        (map string_bytes args.now.allowed_rpath_prefixes.items) O.Opened.contents
        (O.contents files (string_bytes args.now.path_to_binary))
        refused.error refused.store) }
    ensures quiet { IfErr result (λ refused. IsQuietAt (P.may_find probe.now)
        (map string_bytes args.now.allowed_rpath_prefixes.items) W.contents
        (O.contents files (string_bytes args.now.path_to_binary)) out.old out.new
        refused.error refused.store) }
    ensures cause { IfErr result (λ refused. HasShrinkCauseAt
        (O.may_fail files (string_bytes args.now.path_to_binary))
        O.Opened.may_fail_read O.Opened.may_fail_write O.Opened.may_take_none O.Opened.failed
        (O.contents files (string_bytes args.now.path_to_binary))
        (W.failed out.old) (W.failed out.new) refused.error refused.store) }
{
    let mut store = open_path(files, args.path_to_binary.as_str())?;
    match shrink_store(alloc, &mut store, args, probe, out) {
        Ok(()) => Ok(store),
        Err(error) => Err(NotDone {
            error,
            store: Some(store),
        }),
    }
}

/// Shrinks the run paths of a file in its place. What it tells goes to the standard error.
pub(crate) fn shrink_file<R: Files + Eprint + AllocGlobal>(
    rt: &R,
    args: Args,
) -> Result<(), ElfCommandError>
    ensures { IfErr result (MayFailAs
        (shrinking (map string_bytes args.allowed_rpath_prefixes.items))) }
{
    let answer = shrink_lent(rt, &args);
    drop(args);
    answer
}

/// The same by values that are lent.
fn shrink_lent<R: Files + Eprint + AllocGlobal>(rt: &R, args: &Args) -> Result<(), ElfCommandError>
    ensures { IfErr result (MayFailAs
        (shrinking (map string_bytes args.now.allowed_rpath_prefixes.items))) }
{
    let files = RegularFiles { files: rt };
    let probe = FileProbe { files: rt };
    let mut told = Sink::new(StandardError { to: rt });
    match shrink_path(rt.alloc(), &files, args, &probe, &mut told) {
        Ok(_) => Ok(()),
        Err(NotDone { error, store }) => {
            drop(store);
            Err(error)
        }
    }
}
