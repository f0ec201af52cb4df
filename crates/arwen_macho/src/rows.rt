//! Small files and commands, byte by byte, by the definitions that the edits keep. Each row is a clause
//! of a function that does nothing.
ghost use Rattle.arwen_macho.specs.Rows.{AcceptsNarrowBig, AcceptsNarrowLittle, AcceptsSymbols, AcceptsWideBig, AcceptsWideLittle, AddsBehind, AddsFirst, AddsInBoth, AddsInNone, AddsNarrowBig, AddsNarrowLittle, AddsNoFurther, AddsNoSecond, AddsNoSecondNarrowBig, AddsNoSecondNarrowLittle, AddsNoSecondWideBig, AddsNoThird, AddsNothingAmongCommands, AddsThenRemoves, AddsUpToContent, AddsWideBig, BuildsEmpty, BuildsEmptyNarrow, BuildsFour, BuildsName, BuildsNameNarrow, BuildsNarrowBig, BuildsNarrowLittle, BuildsWideBig, BuildsWideLittle, ChangesFirst, ChangesFirstId, ChangesFirstLibrary, ChangesOwnName, ClearsPad, GivesBackInBoth, KeepsAmongCommands, KeepsPad, KeepsRefused, RefusesBeginning, RefusesLonger, RefusesMissing, RefusesMissingFirst, RefusesNul, RefusesOwnName, RefusesSecond, RefusesShownAs, RemovesFirst, ShowsFirst};

/// The commands that are built, in each form of a header. Behind the text there is a NUL, behind the empty
/// one too.
#[tactic(auto, using(crate::proofs::RowLaws::builds_wide_little, crate::proofs::RowLaws::builds_wide_big, crate::proofs::RowLaws::builds_narrow_little, crate::proofs::RowLaws::builds_narrow_big, crate::proofs::RowLaws::builds_empty, crate::proofs::RowLaws::builds_empty_narrow, crate::proofs::RowLaws::builds_four, crate::proofs::RowLaws::builds_name, crate::proofs::RowLaws::builds_name_narrow))]
pub fn commands_are_built()
    ensures builds_wide_little { BuildsWideLittle }
    ensures builds_wide_big { BuildsWideBig }
    ensures builds_narrow_little { BuildsNarrowLittle }
    ensures builds_narrow_big { BuildsNarrowBig }
    ensures builds_empty { BuildsEmpty }
    ensures builds_empty_narrow { BuildsEmptyNarrow }
    ensures builds_four { BuildsFour }
    ensures builds_name { BuildsName }
    ensures builds_name_narrow { BuildsNameNarrow }
{}

/// An rpath is added to a file of 64 bits, little, whose header has 32 zeros behind it: the two counts
/// and the command are written, and there is no room for a second one, which leaves all as it was.
#[tactic(auto, using(crate::proofs::RowLaws::accepts_wide_little, crate::proofs::RowLaws::adds_first, crate::proofs::RowLaws::shows_first, crate::proofs::RowLaws::adds_no_second, crate::proofs::RowLaws::keeps_refused))]
pub fn first_rpath_fits_once()
    ensures accepts_wide_little { AcceptsWideLittle }
    ensures adds_first { AddsFirst }
    ensures shows_first { ShowsFirst }
    ensures adds_no_second { AddsNoSecond }
    ensures keeps_refused { KeepsRefused }
{}

/// A batch may add a command in the room of one that it removes, where the addition alone is refused.
/// The answer names the edit that is refused by itself.
#[tactic(auto, using(crate::proofs::RowLaws::adds_then_removes, crate::proofs::RowLaws::adds_no_third, crate::proofs::RowLaws::refuses_second))]
pub fn batch_takes_room_of_removed()
    ensures adds_then_removes { AddsThenRemoves }
    ensures adds_no_third { AddsNoThird }
    ensures refuses_second { RefusesSecond }
{}

/// A pad of other bytes than zeros stays where one batch adds and removes an rpath, and is cleared where two
/// do.
#[tactic(auto, using(crate::proofs::RowLaws::keeps_pad, crate::proofs::RowLaws::clears_pad))]
pub fn pad_is_kept_by_a_batch()
    ensures keeps_pad { KeepsPad }
    ensures clears_pad { ClearsPad }
{}

/// A first rpath fits once in a file of 64 bits, big, and in files of 32 bits, little and big.
#[tactic(auto, using(crate::proofs::RowLaws::accepts_wide_big, crate::proofs::RowLaws::adds_wide_big, crate::proofs::RowLaws::adds_no_second_wide_big, crate::proofs::RowLaws::accepts_narrow_little, crate::proofs::RowLaws::adds_narrow_little, crate::proofs::RowLaws::adds_no_second_narrow_little, crate::proofs::RowLaws::accepts_narrow_big, crate::proofs::RowLaws::adds_narrow_big, crate::proofs::RowLaws::adds_no_second_narrow_big))]
pub fn first_rpath_fits_once_in_other_forms()
    ensures accepts_wide_big { AcceptsWideBig }
    ensures adds_wide_big { AddsWideBig }
    ensures adds_no_second_wide_big { AddsNoSecondWideBig }
    ensures accepts_narrow_little { AcceptsNarrowLittle }
    ensures adds_narrow_little { AddsNarrowLittle }
    ensures adds_no_second_narrow_little { AddsNoSecondNarrowLittle }
    ensures accepts_narrow_big { AcceptsNarrowBig }
    ensures adds_narrow_big { AddsNarrowBig }
    ensures adds_no_second_narrow_big { AddsNoSecondNarrowBig }
{}

/// A new text with a NUL is refused at the NUL, but only where the old text is there.
#[tactic(auto, using(crate::proofs::RowLaws::refuses_nul, crate::proofs::RowLaws::refuses_missing, crate::proofs::RowLaws::refuses_missing_first))]
pub fn missing_name_is_refused_first()
    ensures refuses_nul { RefusesNul }
    ensures refuses_missing { RefusesMissing }
    ensures refuses_missing_first { RefusesMissingFirst }
{}

/// A text is found only where it stands whole, and byte by byte.
#[tactic(auto, using(crate::proofs::RowLaws::refuses_beginning, crate::proofs::RowLaws::refuses_longer, crate::proofs::RowLaws::refuses_shown_as))]
pub fn texts_are_compared_whole()
    ensures refuses_beginning { RefusesBeginning }
    ensures refuses_longer { RefusesLonger }
    ensures refuses_shown_as { RefusesShownAs }
{}

/// What is added stands behind the commands that are there. Of equal names the first is removed or
/// changed, and a library keeps its kind and its numbers.
#[tactic(auto, using(crate::proofs::RowLaws::adds_behind, crate::proofs::RowLaws::removes_first, crate::proofs::RowLaws::changes_first, crate::proofs::RowLaws::changes_first_library, crate::proofs::RowLaws::changes_first_id))]
pub fn first_match_is_edited()
    ensures adds_behind { AddsBehind }
    ensures removes_first { RemovesFirst }
    ensures changes_first { ChangesFirst }
    ensures changes_first_library { ChangesFirstLibrary }
    ensures changes_first_id { ChangesFirstId }
{}

/// The library's own name is none of those that it loads.
#[tactic(auto, using(crate::proofs::RowLaws::refuses_own_name, crate::proofs::RowLaws::changes_own_name))]
pub fn own_name_is_no_loaded_library()
    ensures refuses_own_name { RefusesOwnName }
    ensures changes_own_name { ChangesOwnName }
{}

/// Commands may end where content begins, and no further. Where content begins among them, they may end
/// where they do already.
#[tactic(auto, using(crate::proofs::RowLaws::accepts_symbols, crate::proofs::RowLaws::adds_up_to_content, crate::proofs::RowLaws::adds_no_further, crate::proofs::RowLaws::adds_nothing_among_commands, crate::proofs::RowLaws::keeps_among_commands))]
pub fn room_ends_at_first_content()
    ensures accepts_symbols { AcceptsSymbols }
    ensures adds_up_to_content { AddsUpToContent }
    ensures adds_no_further { AddsNoFurther }
    ensures adds_nothing_among_commands { AddsNothingAmongCommands }
    ensures keeps_among_commands { KeepsAmongCommands }
{}

/// A fat file with two slices: an rpath is added in both or in none, and what is removed again in the next
/// batch leaves the file as it was.
#[tactic(auto, using(crate::proofs::RowLaws::adds_in_both, crate::proofs::RowLaws::adds_in_none, crate::proofs::RowLaws::gives_back_in_both))]
pub fn slices_are_edited_together()
    ensures adds_in_both { AddsInBoth }
    ensures adds_in_none { AddsInNone }
    ensures gives_back_in_both { GivesBackInBoth }
{}
