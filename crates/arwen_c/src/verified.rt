//! Whether the pages of code signatures fit, as an answer.
ghost use Rattle.std.specs.Prelude.{◌≡◌, ◌≢◌, ◌⊎◌, [], false, string_bytes, true};
ghost use Rattle.arwen_c.specs.Answers.{Gives, Hands, Refuses};
ghost use Rattle.arwen_c.specs.Made.{IsVerified, OrMemory, TellsUnverified};

use crate::answer::{Answer, Made, give, refuse};
use crate::error::CallError;
use crate::status::{ARWEN_OK, ARWEN_UNFIT};
use macho_commands::{Verdict, verify_bytes};
use std::alloc::Global;

/// Puts into an answer whether all pages of the code signatures of a file fit, and answers what the call returns.
pub(crate) fn verified(alloc: Global, bytes: &[u8], answer: &mut Answer) -> u32
    ensures fits { result ≡ ARWEN_OK → Gives (IsVerified true bytes.now) answer.new }
    ensures unfit { result ≡ ARWEN_UNFIT → Gives (IsVerified false bytes.now) answer.new }
    ensures err { result ≢ ARWEN_OK → result ≢ ARWEN_UNFIT
        → Refuses (OrMemory (TellsUnverified bytes.now)) result answer.new }
{
    match verify_bytes(alloc, bytes) {
        Ok(verdict) => told(alloc, verdict, answer),
        Err(error) => refuse(alloc, CallError::Macho(error), answer),
    }
}

/// Puts what was found into an answer.
fn told(alloc: Global, verdict: Verdict, answer: &mut Answer) -> u32
    ensures fits { result ≡ ARWEN_OK → verdict.do_all_fit ≡ true }
    ensures unfit { result ≡ ARWEN_UNFIT → verdict.do_all_fit ≡ false }
    ensures either { (result ≡ ARWEN_OK) ⊎ (result ≡ ARWEN_UNFIT) }
    ensures hands { Hands [] (string_bytes verdict.text) answer.new }
{
    let Verdict { text, do_all_fit } = verdict;
    let made = Made {
        bytes: Vec::new(alloc),
        text: text.into_bytes(),
    };
    let status = give(made, answer);
    if do_all_fit { status } else { ARWEN_UNFIT }
}
