//! Answers, and what is put into them.
ghost use Rattle.std.specs.Prelude.{◌≡◌, ◌≢◌, ◌⊎◌, Err, IsOkAnd};
ghost use Rattle.arwen_c.specs.Answers.{Hands, Refuses};
ghost use Rattle.arwen_c.specs.declared.error.CallError.TheVariants.{Memory as no_memory_left};

use crate::causes::{cause_of, edit_of, status_of};
use crate::error::CallError;
use crate::status::{ARWEN_MEMORY, ARWEN_OK, NO_EDIT};
use crate::texts::text_of;
use std::alloc::Global;

/// What a call answers. A list of bytes that has a length stands in memory of its own, which C frees.
#[repr(C)]
#[derive(Clone, Copy, Debug)]
pub struct Answer {
    /// The edited file; empty where there is none.
    pub bytes: &'static [u8],
    /// Notes, or what was asked for; else why there is nothing.
    pub text: &'static [u8],
    /// 0, or the number of the cause.
    pub cause: u32,
    /// The edit that the cause stands against, counted from 0; `NO_EDIT` where it is none.
    pub edit: usize,
}

/// What a call found or made.
#[derive(Drop)]
pub struct Made {
    /// The edited file; empty where there is none.
    pub bytes: Vec<u8>,
    /// The text.
    pub text: Vec<u8>,
}

/// Hands out bytes for good. Nothing is handed out where there are none, so that C frees what has a length.
fn handed_out(bytes: Vec<u8>) -> &'static [u8]
    ensures { result.now ≡ bytes.items }
{
    if bytes.is_empty() {
        return b"";
    }
    bytes.leak()
}

/// Puts what a call made into an answer, or why it made nothing, and answers what the call returns.
pub(crate) fn answered(alloc: Global, made: Result<Made, CallError>, answer: &mut Answer) -> u32
    ensures ok { result ≡ ARWEN_OK → IsOkAnd made (λ made.
        Hands made.bytes.items made.text.items answer.new) }
    ensures err { result ≢ ARWEN_OK
        → Refuses (λ e. (made ≡ Err e) ⊎ (e ≡ no_memory_left)) result answer.new }
{
    match made {
        Ok(made) => give(made, answer),
        Err(error) => refuse(alloc, error, answer),
    }
}

/// Puts what a call made into an answer.
pub(crate) fn give(made: Made, answer: &mut Answer) -> u32
    ensures ok { result ≡ ARWEN_OK }
    ensures hands { Hands made.bytes.items made.text.items answer.new }
{
    let Made { bytes, text } = made;
    answer.bytes = handed_out(bytes);
    answer.text = handed_out(text);
    answer.cause = 0;
    answer.edit = NO_EDIT;
    ARWEN_OK
}

/// Puts an error into an answer, and answers what the call returns: that there was no memory, where there is none for its text.
pub(crate) fn refuse(alloc: Global, error: CallError, answer: &mut Answer) -> u32
    ensures failed { result ≢ ARWEN_OK }
    ensures refuses { Refuses (λ e. (e ≡ error) ⊎ (e ≡ no_memory_left)) result answer.new }
{
    let status = status_of(&error);
    let text = text_of(alloc, &error);
    answer.bytes = b"";
    answer.cause = cause_of(&error);
    answer.edit = edit_of(&error);
    drop(error);
    match text {
        Ok(text) if status != ARWEN_MEMORY => {
            answer.text = handed_out(text.into_bytes());
            status
        }
        _ => no_memory(answer),
    }
}

/// Puts into an answer that there was no memory.
fn no_memory(answer: &mut Answer) -> u32
    ensures failed { result ≢ ARWEN_OK }
    ensures refuses { Refuses (λ e. e ≡ no_memory_left) result answer.new }
{
    answer.bytes = b"";
    answer.text = b"";
    answer.cause = 0;
    answer.edit = NO_EDIT;
    ARWEN_MEMORY
}
