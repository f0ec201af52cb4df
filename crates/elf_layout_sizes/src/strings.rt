//! Whether a string table is copied, and the table where it is made anew.
ghost use Rattle.std.specs.Prelude.{◌≡◌, ℕ, ◌≤◌, ◌<◌, ◌^◌, List, ◌∷◌, drop, length, IfErr, IfOk, IsTrue, MatchOption, MatchResult};
ghost use Rattle.elf_layout_plan.specs.TableFault.TheVariants.{NumberTooLarge};
ghost use Rattle.elf_layout_plan.specs.Strings.{HoldNoNul, IsTableOf, PlacesStand, table_length};
ghost use Rattle.elf_image.specs.Kept.{image_at_read};
ghost use Rattle.elf_layout_plan.specs.Texts.{is_subsequence as is_subsequence_of, is_table_copied, texts_in_use};
ghost use Rattle.elf_layout_sizes.specs.MadeTables.{IsMade, IsTooLong};

use crate::texts::Texts;
use crate::users::Users;
use elf_layout_plan::{Builder, Finished, TableFault};
use std::alloc::{AllocError, Global};

// How many of the first texts are found once another text was looked at, where `next` of them were before.
fn next_after(some: &Texts<'_>, next: usize, text: &[u8]) -> usize
    requires { next ≤ length some.now }
    ensures within { result ≤ length some.now }
    ensures same { (others : List (List ℕ))
        → is_subsequence_of (drop next some.now) (text.now ∷ others)
        ≡ is_subsequence_of (drop result some.now) others }
{
    if next == some.len() {
        return next;
    }
    if some.text(next) == text {
        next + 1
    } else {
        next
    }
}

// Whether the first texts are the second with some left out.
pub(crate) fn is_subsequence(some: &Texts<'_>, all: &Texts<'_>) -> bool
    ensures { result ≡ is_subsequence_of some.now all.now }
{
    let mut next = 0;
    for i in 0..all.len() {
        if some.len() - next > all.len() - i {
            return false;
        }
        next = next_after(some, next, all.text(i));
    }
    next == some.len()
}

// Whether the texts are those that an image uses of the string table with that number, with some left out.
fn are_among_read(
    alloc: Global,
    texts: &Texts<'_>,
    read_users: &Users<'_, '_>,
    number: usize,
) -> Result<bool, AllocError>
    ensures { IfOk result (λ are. are ≡ is_subsequence_of texts.now
        (texts_in_use read_users.now.read read_users.now.image number)) }
{
    let at_read = read_users.texts(alloc, number)?;
    Ok(is_subsequence(texts, &at_read))
}

// The string table with that number at read, where it is made anew, for the users of the image's texts and of the texts
// that were read.
pub(crate) fn made_for<'a, 'data>(
    alloc: Global,
    users: &Users<'a, 'data>,
    read_users: &Users<'a, 'data>,
    number: usize,
) -> Result<Option<Finished<'a>>, TableFault>
    requires { read_users.now ≡ record { read = users.now.read; image = users.now.read } }
    ensures table { IfOk result (λ made. MatchOption made
        (IsTrue (is_table_copied users.now.read users.now.image number))
        (IsMade users.now.read users.now.image number)) }
    ensures fault { IfErr result (λ fault.
        fault ≡ NumberTooLarge → IsTooLong users.now.read users.now.image number) }
{
    let told = users.is_copied_by_others(alloc, read_users, number)?;
    if let Some(true) = told {
        return Ok(None);
    }
    let now = users.texts(alloc, number)?;
    if told.is_none() && are_among_read(alloc, &now, read_users, number)? {
        return Ok(None);
    }
    let table = now.finish(alloc)?;
    Ok(Some(table))
}

/// The string table with that number at read, with the texts that the edited image uses of it (gABI, String Table); `None`
/// where the table that was read is copied. `NumberTooLarge` where it has more than 2 to the 32 bytes, so that the last of
/// its texts has an offset past 32 bits. The caller has the image as its source was read.
pub fn made_table<'a, 'data>(
    alloc: Global,
    read: &'a Builder<'data>,
    image: &'a Builder<'data>,
    number: usize,
) -> Result<Option<Finished<'a>>, TableFault>
    requires { read.now ≡ image_at_read image.now }
    ensures table { IfOk result (λ made. MatchOption made
        (IsTrue (is_table_copied read.entry.now image.entry.now number))
        (IsMade read.entry.now image.entry.now number)) }
    ensures fault { IfErr result (λ fault.
        fault ≡ NumberTooLarge → IsTooLong read.entry.now image.entry.now number) }
{
    let users = Users::new(alloc, read, image)?;
    let read_users = Users::of_read(alloc, read);
    made_for(alloc, &users, &read_users, number)
}
