//! What is exported to C.
ghost use Rattle.std.specs.Prelude.{◌≡◌, ◌≢◌, codes, false, map, true};
ghost use Rattle.std.specs.Str.Lossy.{utf8_lossy};
ghost use Rattle.arwen_c.specs.Answers.{Gives, Refuses};
ghost use Rattle.arwen_c.specs.Calls.{IsApplied, IsAppliedByWords, IsSigned, TellsApplied, TellsAppliedByWords, TellsUnsigned};
ghost use Rattle.arwen_c.specs.CauseWords.{words_of};
ghost use Rattle.arwen_c.specs.Made.{IsShown, IsVerified, OrMemory, TellsUnshown, TellsUnverified};
ghost use Rattle.arwen_c_edits.specs.Lent.{edit_model, text_model};

use crate::answer::{Answer, answered};
use crate::calls::{applied, applied_words, shown, signed};
use crate::cause_rows::cause_words;
use crate::status::{ARWEN_OK, ARWEN_UNFIT};
use crate::verified::verified;
use arwen_c_edits::{LentEdit, LentText};
use std::alloc::Global;

/// Edits the bytes of a file by an array of edits: an ELF file by its magic, any other as a Mach-O file. With `ARWEN_OK` the
/// answer has the edited file and the notes, which call the file by the name. Of the flags, `ARWEN_MOVE_DYNAMIC` gives leave that
/// the dynamic section of an ELF file moves where it has no room, and by `ARWEN_SIGN` pages that the edits touch are made to fit
/// again in ad-hoc code signatures of a Mach-O file; others are passed over. With any other status there is a cause.
#[unsafe(no_mangle)]
pub extern "C" fn arwen_apply(
    alloc: Global,
    bytes: &[u8],
    edits: &[LentEdit<'_>],
    name: &[u8],
    flags: u32,
    answer: &mut Answer,
) -> u32
    ensures ok { result ≡ ARWEN_OK
        → Gives (IsApplied (map edit_model edits.now) name.now flags bytes.now) answer.new }
    ensures err { result ≢ ARWEN_OK
        → Refuses (TellsApplied (map edit_model edits.now) name.now flags bytes.now)
        result answer.new }
{
    let made = applied(alloc, bytes, edits, name, flags);
    answered(alloc, made, answer)
}

/// Edits the bytes of a file as `arwen_apply` does, by words: those behind `apply FILE`.
#[unsafe(no_mangle)]
pub extern "C" fn arwen_apply_words(
    alloc: Global,
    bytes: &[u8],
    words: &[LentText<'_>],
    name: &[u8],
    flags: u32,
    answer: &mut Answer,
) -> u32
    ensures ok { result ≡ ARWEN_OK
        → Gives (IsAppliedByWords (map text_model words.now) name.now flags bytes.now) answer.new }
    ensures err { result ≢ ARWEN_OK
        → Refuses (TellsAppliedByWords (map text_model words.now) name.now flags bytes.now)
        result answer.new }
{
    let made = applied_words(alloc, bytes, words, name, flags);
    answered(alloc, made, answer)
}

/// Makes all pages of ad-hoc code signatures of a Mach-O file fit.
#[unsafe(no_mangle)]
pub extern "C" fn arwen_sign(alloc: Global, bytes: &[u8], name: &[u8], answer: &mut Answer) -> u32
    ensures ok { result ≡ ARWEN_OK → Gives (IsSigned name.now bytes.now) answer.new }
    ensures err { result ≢ ARWEN_OK
        → Refuses (TellsUnsigned name.now bytes.now) result answer.new }
{
    let made = signed(alloc, bytes, name);
    answered(alloc, made, answer)
}

/// Tells whether all pages of the code signatures of a Mach-O file fit: `ARWEN_OK` or `ARWEN_UNFIT`, with a text that tells it.
#[unsafe(no_mangle)]
pub extern "C" fn arwen_verify(alloc: Global, bytes: &[u8], answer: &mut Answer) -> u32
    ensures fits { result ≡ ARWEN_OK → Gives (IsVerified true bytes.now) answer.new }
    ensures unfit { result ≡ ARWEN_UNFIT → Gives (IsVerified false bytes.now) answer.new }
    ensures err { result ≢ ARWEN_OK → result ≢ ARWEN_UNFIT
        → Refuses (OrMemory (TellsUnverified bytes.now)) result answer.new }
{
    verified(alloc, bytes, answer)
}

/// Tells what a file is and what it asks of a loader: the text is a line of JSON, with this name of the file.
#[unsafe(no_mangle)]
pub extern "C" fn arwen_show(alloc: Global, bytes: &[u8], name: &[u8], answer: &mut Answer) -> u32
    ensures ok { result ≡ ARWEN_OK
        → Gives (IsShown (utf8_lossy name.now) bytes.now) answer.new }
    ensures err { result ≢ ARWEN_OK
        → Refuses (OrMemory (TellsUnshown bytes.now)) result answer.new }
{
    let made = shown(alloc, bytes, name);
    answered(alloc, made, answer)
}

/// Tells the words for a cause; none for a number of none.
#[unsafe(no_mangle)]
pub extern "C" fn arwen_cause_text(cause: u32, text: &mut LentText<'static>)
    ensures { text.new.bytes.now ≡ words_of cause }
{
    text.bytes = cause_words(cause).as_bytes();
}

/// Tells the version.
#[unsafe(no_mangle)]
pub extern "C" fn arwen_version(text: &mut LentText<'static>)
    ensures { text.new.bytes.now ≡ codes "0.1.0" }
{
    text.bytes = b"0.1.0";
}
