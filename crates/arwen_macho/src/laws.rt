//! Laws that hold of all files under edits, and of all edits. Each is the contract of a function that does
//! nothing.
ghost use Rattle.arwen_macho.specs.FatLaws.{FatRemoveGivesBack, FatShorterFits};
ghost use Rattle.arwen_macho.specs.FileLaws.{FatBytesShow, FileBytesShow, FreshHasItsBytes, FreshIsState, StepIsState, ThinBytesShow};
ghost use Rattle.arwen_macho.specs.Laws.{BatchGivesBack, LastDecides, MiddleMayOverflow, RemoveGivesBack, ShorterFits};

/// A file as it was parsed has the bytes that were read, and is in a state that edits can lead to; what a
/// batch makes of such a state is one again.
pub fn edits_lead_from_state_to_state()
    ensures bytes { FreshHasItsBytes }
    ensures fresh { FreshIsState }
    ensures step { StepIsState }
{}

/// The bytes of such a state are accepted by a parse, and show the state: its load commands, in a fat file
/// those of each slice.
pub fn bytes_show_their_state()
    ensures thin { ThinBytesShow }
    ensures fat { FatBytesShow }
    ensures either { FileBytesShow }
{}

/// An rpath that no command had is added, and removed again: the list is as it was, and so are the
/// bytes, exactly if those that the added command took were zeros. In one batch, nothing changes. The same
/// holds in all slices of a fat file.
pub fn removing_gives_back()
    ensures calls { RemoveGivesBack }
    ensures batch { BatchGivesBack }
    ensures fat { FatRemoveGivesBack }
{}

/// A change of a name whose command is no longer than the one before it is never refused for room; nor is
/// one in a fat file, where it is no longer in any slice.
pub fn shorter_name_fits()
    ensures thin { ShorterFits }
    ensures fat { FatShorterFits }
{}

/// Of a batch the last list alone decides whether there is room.
pub fn last_list_decides()
    ensures last { LastDecides }
    ensures middle { MiddleMayOverflow }
{}
