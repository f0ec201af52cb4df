//! The changes of an image, one part at a time.
ghost use Rattle.std.specs.Prelude.{◌≡◌, ◌<◌, ◌==◌, All, IfOk, MatchResult, IsSome, IsTrue, map, not, option_map, position, vec_len, None as none, Some as some, true};
ghost use Rattle.std.specs.Borrow.{sem};
ghost use Rattle.std.specs.List.{remove};
ghost use Rattle.elf_format.specs.declared.constants.TheConstants.{PT_GNU_STACK as STACK};
ghost use Rattle.elf_image_headers.specs.DynamicList.{IsListed, KeepsTables, all_but_last, can_delete, can_retag, can_follow, holds_nul, is_free_tag, retagged, with_tag_at, without_tag};
ghost use Rattle.elf_image.specs.File.{segment_of_type};
ghost use Rattle.elf_image.specs.Edited.{AreSameNeeds};
ghost use Rattle.elf_image.specs.ImageModel.{entry_model, needs_model, segment_model};
ghost use Rattle.elf_image_headers.specs.Segments.{added_stack as added_header, with_load_align, with_stack_added, with_stack_flags};
ghost use Rattle.elf_image_headers.specs.SpareFrom.{reclaimable};
ghost use Rattle.elf_image.specs.Leave.{spare_facts, with_dynamic_move};

use crate::builder::{Builder, Segment};
use elf_image_headers::dynamic::Dynamic;
use elf_image_headers::entries::{remove_entry, remove_tagged, retag_entries, retag_entry};
use elf_image_headers::segment::STACK_FLAGS;
use elf_image_headers::segments::{added_stack, align_loads, flag_stack, stack_position};
use elf_image_headers::spare::{SpareFrom, SpareParts, reclaim};
use elf_image_versions::version::VersionNeed;
use patch_bytes::ByteString;
use std::alloc::{AllocError, Global};

impl<'data> Builder<'data> {
    ghost use Rattle.elf_image.specs.Lending.{LendsAddedFlags, LendsFlagsOfStack, LendsStackFlags};
    ghost use Rattle.elf_image_headers.specs.declared.segment.TheConstants.{STACK_FLAGS as ADDED_FLAGS};

    /// Puts another dynamic list in place of the one that is there (gABI, Dynamic Section). The caller sees that
    /// it names the same tables in the same order, and that each entry may stand before the DT_NULL. Takes no
    /// memory.
    pub fn set_dynamic(&mut self, list: Vec<Dynamic<'data>>)
        requires tables { KeepsTables self.old.entries (map entry_model list.items) }
        requires entries { All IsListed (map entry_model list.items) }
        ensures { self.new ≡ record self.old {
          changed = true;
          entries = some (map entry_model list.entry.items);
        } }
    {
        self.dynamic = Some(list);
        self.changed = true;
    }

    /// Deletes the entry of the dynamic list at a position, which is of no table (gABI, Dynamic Section). Takes no
    /// memory.
    pub fn delete_dynamic(&mut self, index: usize)
        requires { IsTrue (can_delete self.old.entries index) }
        ensures { self.new ≡ record self.old {
          changed = true;
          entries = option_map (λ list. remove list index) self.old.entries;
        } }
    {
        self.changed = true;
        let Some(list) = &mut self.dynamic else {
            return;
        };
        remove_entry(list, index);
    }

    /// Deletes every entry of the dynamic list with this tag, which is of no table. Takes no memory.
    pub fn delete_dynamic_tag(&mut self, tag: u64)
        requires { IsTrue (is_free_tag tag) }
        ensures { self.new ≡ record self.old {
          changed = true;
          entries = option_map (without_tag tag) self.old.entries;
        } }
    {
        self.changed = true;
        let Some(list) = &mut self.dynamic else {
            return;
        };
        remove_tagged(list, tag);
    }

    /// Gives the entry of the dynamic list at a position another tag, whose value is of the same kind. Takes no
    /// memory.
    pub fn retag(&mut self, index: usize, tag: u64)
        requires { IsTrue (can_retag self.old.entries index tag) }
        ensures { self.new ≡ record self.old {
          changed = true;
          entries = option_map (with_tag_at index tag) self.old.entries;
        } }
    {
        self.changed = true;
        let Some(list) = &mut self.dynamic else {
            return;
        };
        retag_entry(list, index, tag);
    }

    /// Gives every entry of the dynamic list with the one tag the other tag, whose value is of the same kind.
    /// Takes no memory.
    pub fn retag_all(&mut self, old: u64, new: u64)
        requires { IsTrue (can_follow new old) }
        ensures { self.new ≡ record self.old {
          changed = true;
          entries = option_map (retagged old new) self.old.entries;
        } }
    {
        self.changed = true;
        let Some(list) = &mut self.dynamic else {
            return;
        };
        retag_entries(list, old, new);
    }

    /// Puts other bytes in place of the interpreter's (gABI, Program Interpreter), in which a NUL stands last or
    /// nowhere. Takes no memory.
    pub fn set_interp(&mut self, bytes: ByteString<'data>)
        requires there { IsSome self.old.interpreter }
        requires nul { IsTrue (not (holds_nul (all_but_last bytes.bytes))) }
        ensures { self.new ≡ record self.old {
          changed = true;
          interpreter = some bytes.entry.bytes;
        } }
    {
        self.interpreter = Some(bytes);
        self.changed = true;
    }

    /// Sets the byte that tells the ABI (gABI, ELF Identification, `EI_OSABI`). Takes no memory.
    pub fn set_os_abi(&mut self, byte: u8)
        ensures { self.new ≡ record self.old {
          changed = true;
          header = record self.old.header { os_abi = byte };
        } }
    {
        self.header.os_abi = byte;
        self.changed = true;
    }

    /// Sets the page size, in bytes: each PT_LOAD gets it as its alignment (gABI, Program Header). Takes no memory.
    pub fn set_load_align(&mut self, size: u32)
        ensures { self.new ≡ record self.old {
          changed = true;
          segments = with_load_align size self.old.segments;
          page_size = some size;
        } }
    {
        align_loads(&mut self.segments, u64::from(size));
        self.page_size = Some(size);
        self.changed = true;
    }

    /// Puts other records of needed versions in place of those that are there (GNU symbol versioning, `Elfxx_Verneed`). The
    /// caller sees that there is a dynamic list, and that they are the same but for the names of libraries, of which no other
    /// one has a NUL. Takes no memory.
    pub fn set_needs(&mut self, needs: Vec<VersionNeed<'data>>)
        requires listed { IsSome self.old.entries }
        requires same { AreSameNeeds self.old.needs (map needs_model needs.items) }
        ensures { self.new ≡ record self.old {
          changed = true;
          needs = map needs_model needs.entry.items;
        } }
    {
        self.versions.needs = needs;
        self.changed = true;
    }

    /// Gives leave that the dynamic section moves where it has grown into what follows it. It then stands in a loaded segment
    /// that is added and that may be written, and PT_DYNAMIC follows it (gABI, Dynamic Section). Where it stood its bytes stay,
    /// since some programs find it there by `_DYNAMIC`. Loaded segments that an earlier edit added, which stand behind all others and
    /// hold nothing but sections that can move, go: these sections are laid out anew in their place. Takes no memory.
    pub fn allow_dynamic_move(&mut self)
        ensures { self.new ≡ with_dynamic_move self.old }
    {
        let from = self.spare_from();
        reclaim(&mut self.segments, from);
        self.moves_dynamic = true;
        self.changed = true;
    }

    // From where on segments are spare; `None` where these can't be taken away.
    fn spare_from(&self) -> Option<SpareFrom>
        ensures { result ≡ reclaimable (spare_facts self.now) }
    {
        let parts = SpareParts {
            segments: self.segments.as_slice(),
            sections: self.sections.as_slice(),
            numbers: self.section_numbers.as_slice(),
            table: self.header.e_phoff,
            source: self.source,
        };
        parts.reclaimable()
    }

    /// The first PT_GNU_STACK, whose flags say whether the stack may be run (GNU extension). Takes no memory.
    pub fn stack(&self) -> Option<&Segment<'data>>
        ensures { option_map (λ p. segment_model p.now) result
            ≡ segment_of_type STACK self.now.segments }
    {
        let at = stack_position(&self.segments)?;
        Some(&self.segments[at])
    }

    /// Sets the flags of the first PT_GNU_STACK, which is there. Takes no memory.
    pub fn set_stack_flags(&mut self, flags: u32)
        requires { IsSome (segment_of_type STACK self.old.segments) }
        ensures { self.new ≡ record self.old {
          changed = true;
          segments = with_stack_flags flags self.old.segments;
        } }
    {
        flag_stack(&mut self.segments, flags);
        self.changed = true;
    }

    /// Puts a PT_GNU_STACK with these flags behind all program headers, which have none (GNU extension). It stands
    /// nowhere. Error: `AllocError`, and nothing has changed.
    pub fn push_stack(&mut self, _alloc: Global, flags: u32) -> Result<(), AllocError>
        requires { segment_of_type STACK self.old.segments ≡ none }
        ensures { MatchResult result
            (λ _. self.new ≡ record self.old {
              changed = true;
              segments = with_stack_added flags self.old.segments;
            })
            (λ _. self.new ≡ self.old) }
    {
        self.segments.push(added_stack(flags))?;
        self.changed = true;
        Ok(())
    }

    /// Lends the flags of the first PT_GNU_STACK (GNU extension); `None` without one. The image counts as changed
    /// where they are lent. Takes no memory.
    pub fn stack_mut(&mut self) -> Option<&mut u32>
        ensures* lends { sem 𝓛 (LendsStackFlags self.entry result) }
        ensures value { option_map (λ flags. flags.now) result
            ≡ option_map (λ p. p.p_flags) (segment_of_type STACK self.old.segments) }
    {
        match stack_position(&self.segments) {
            Some(at) => Some(self.stack_flags_at(at)),
            None => None,
        }
    }

    // Lends the flags of the first program header for the stack, which stands at a position.
    fn stack_flags_at(&mut self, at: usize) -> &mut u32
        requires { position (λ p. p.p_type == STACK) self.old.segments ≡ some at }
        ensures* lends { sem 𝓛 (LendsFlagsOfStack self.entry result) }
        ensures value { some result.now
            ≡ option_map (λ p. p.p_flags) (segment_of_type STACK self.old.segments) }
    {
        self.changed = true;
        self.segments[at].flags_mut()
    }

    /// Puts a PT_GNU_STACK behind all program headers, which have none (GNU extension), and lends its flags: those of
    /// a stack that may be read, written and run. It stands nowhere. Error: `AllocError`, and nothing has changed.
    pub fn add_stack(&mut self, alloc: Global) -> Result<&mut u32, AllocError>
        requires { segment_of_type STACK self.old.segments ≡ none }
        ensures* lends { sem 𝓛 (LendsAddedFlags self.entry result) }
        ensures value { IfOk result (λ flags. flags.now ≡ ADDED_FLAGS) }
    {
        self.push_stack(alloc, STACK_FLAGS)?;
        let at = self.segments.len() - 1;
        Ok(self.stack_flags_at(at))
    }
}
