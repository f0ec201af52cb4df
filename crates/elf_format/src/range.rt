ghost use Rattle.std.specs.Prelude.{◌≡◌};

/// Places of a file or of memory, one behind another, in bytes.
#[derive(Clone, Copy)]
pub struct Range {
    /// The first place.
    pub start: u64,
    /// How many places there are.
    pub size: u64,
}

impl Range {
    ghost use Rattle.elf_format.specs.Ranges.{apart, end_of, lies_in};

    /// The place behind the last one, which is past 64 bits where a header says so.
    pub fn end(self) -> u128
        ensures { result ≡ end_of self }
    {
        self.start as u128 + self.size as u128
    }

    /// Whether the range lies in another one; an empty range has to lie there too.
    pub fn lies_in(self, outer: Range) -> bool
        ensures { result ≡ lies_in self outer }
    {
        outer.start <= self.start && self.end() <= outer.end()
    }

    /// Whether the range shares no place with another one; an empty one shares none with any.
    pub fn is_apart(self, other: Range) -> bool
        ensures { result ≡ apart self other }
    {
        self.size == 0
            || other.size == 0
            || self.end() <= other.start as u128
            || other.end() <= self.start as u128
    }
}
