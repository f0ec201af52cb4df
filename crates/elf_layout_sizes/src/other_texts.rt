//! The texts of a string table that aren't names of symbols, by which it is often told whether the table is copied.
ghost use Rattle.std.specs.Prelude.{◌≡◌, ◌&&◌, List, ℕ, IfSome, IsTrue};
ghost use Rattle.elf_layout_plan.specs.Texts.{is_subsequence as is_subsequence_of};
ghost use Rattle.elf_layout_sizes.specs.OtherTexts.{HaveSameCounts, count_of, with_names};

use crate::strings::is_subsequence;
use crate::texts::Texts;

// The texts that an image uses of a string table, but for the names of symbols: those of the dynamic list, of versions, and the
// names of sections.
#[derive(Drop)]
pub(crate) struct Others<'t> {
    pub(crate) list: Texts<'t>,
    pub(crate) versions: Texts<'t>,
    pub(crate) sections: Texts<'t>,
}

// How many texts there are.
fn count(texts: &Others<'_>) -> u128
    ensures { result ≡ count_of texts.now }
{
    texts.list.len() as u128 + texts.versions.len() as u128 + texts.sections.len() as u128
}

// Whether there are as many of each kind.
pub(crate) fn have_same_counts(now: &Others<'_>, at_read: &Others<'_>) -> bool
    ensures { IsTrue result → HaveSameCounts now.now at_read.now }
{
    now.list.len() == at_read.list.len()
        && now.versions.len() == at_read.versions.len()
        && now.sections.len() == at_read.sections.len()
}

// Whether the texts of each kind are those at read, some left out.
fn are_of_read(now: &Others<'_>, at_read: &Others<'_>) -> bool
    ensures { result ≡ (is_subsequence_of now.now.list at_read.now.list
        && is_subsequence_of now.now.versions at_read.now.versions
        && is_subsequence_of now.now.sections at_read.now.sections) }
{
    is_subsequence(&now.list, &at_read.list)
        && is_subsequence(&now.versions, &at_read.versions)
        && is_subsequence(&now.sections, &at_read.sections)
}

// Whether the texts now are those at read with some left out, whatever names of symbols stand among both: told where there
// are more now, or as many of each kind.
pub(crate) fn is_known_copied(now: &Others<'_>, at_read: &Others<'_>) -> Option<bool>
    ensures { (ys zs : List (List ℕ)) → IfSome result (λ told. told
        ≡ is_subsequence_of (with_names now.now ys zs) (with_names at_read.now ys zs)) }
{
    if count(now) > count(at_read) {
        return Some(false);
    }
    if !have_same_counts(now, at_read) {
        return None;
    }
    Some(are_of_read(now, at_read))
}
