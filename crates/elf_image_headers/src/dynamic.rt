ghost use Rattle.std.specs.Prelude.{◌≡◌};

use elf_format::ByteString;
use std::alloc::{AllocError, Global};

/// An entry of the dynamic list (gABI, Dynamic Section).
#[derive(Debug, Drop)]
pub enum Dynamic<'data> {
    /// A tag whose value follows from where a table lies, how long it is or how many records it has.
    Auto { tag: u64 },
    /// A tag with a number.
    Integer { tag: u64, val: u64 },
    /// A tag with a text of the dynamic strings.
    Text { tag: u64, val: ByteString<'data> },
}

impl Dynamic<'_> {
    ghost use Rattle.elf_image_headers.specs.DynamicTag.{tag_of};

    /// The entry's tag. Takes no memory.
    pub fn tag(&self) -> u64
        ensures { result ≡ tag_of self.now }
    {
        match self {
            Dynamic::Auto { tag } => *tag,
            Dynamic::Integer { tag, .. } => *tag,
            Dynamic::Text { tag, .. } => *tag,
        }
    }

    ghost use Rattle.std.specs.Prelude.{◌==◌, if◌then◌else◌};
    ghost use Rattle.elf_format.specs.Image.{entry_tag};
    ghost use Rattle.elf_image_headers.specs.DynamicList.{with_tag};
    ghost use Rattle.elf_image_headers.specs.PartModels.{entry_model};

    /// Whether the entry has a tag. Takes no memory.
    pub fn has_tag(&self, tag: u64) -> bool
        ensures { result ≡ (entry_tag (entry_model self.now) == tag) }
    {
        match self {
            Dynamic::Auto { tag: own } => *own == tag,
            Dynamic::Integer { tag: own, .. } => *own == tag,
            Dynamic::Text { tag: own, .. } => *own == tag,
        }
    }

    /// Gives the entry another tag. Takes no memory.
    pub fn set_tag(&mut self, new: u64)
        ensures { entry_model self.new ≡ with_tag new (entry_model self.old) }
    {
        match self {
            Dynamic::Auto { tag } => *tag = new,
            Dynamic::Integer { tag, .. } => *tag = new,
            Dynamic::Text { tag, .. } => *tag = new,
        }
    }

    /// Gives the entry the new tag where it has the old one. Takes no memory.
    pub fn change_tag(&mut self, old: u64, new: u64)
        ensures { entry_model self.new
            ≡ (if entry_tag (entry_model self.old) == old then with_tag new (entry_model self.old)
            else entry_model self.old) }
    {
        if self.has_tag(old) {
            self.set_tag(new);
        }
    }
}

impl<'data> Dynamic<'data> {
    ghost use Rattle.std.specs.Prelude.{IfOk};
    ghost use Rattle.elf_image_headers.specs.PartModels.{entry_model};

    /// A copy of the entry: a borrowed text is lent again, an owned one copied. Error:
    /// `AllocError`.
    pub fn try_clone(&self, alloc: Global) -> Result<Dynamic<'data>, AllocError>
        ensures { IfOk result (λ copy. entry_model copy ≡ entry_model self.now) }
    {
        match self {
            Dynamic::Auto { tag } => Ok(Dynamic::Auto { tag: *tag }),
            Dynamic::Integer { tag, val } => Ok(Dynamic::Integer {
                tag: *tag,
                val: *val,
            }),
            Dynamic::Text { tag, val } => {
                let val = val.try_clone(alloc)?;
                Ok(Dynamic::Text { tag: *tag, val })
            }
        }
    }
}
