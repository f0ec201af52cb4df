//! Numbers in rising order.
ghost use Rattle.std.specs.Prelude.{◌≡◌, count_by, nat_lt, IsPermutation};
ghost use Rattle.std.specs.List.Sorted.{IsNonDecreasing};
ghost use Rattle.std.specs.List.{list_any};
ghost use Rattle.elf_layout_segments.specs.InOrder.{is_in};

use elf_format::range::Range;

/// Numbers in rising order.
#[derive(Drop)]
pub struct Rising {
    /// The numbers.
    pub numbers: Vec<u128>,
    ghost rise: { IsNonDecreasing numbers.items },
}

impl Rising {
    /// Puts numbers in order.
    pub fn of(numbers: Vec<u128>) -> Rising
        ensures { IsPermutation numbers.items result.numbers.items }
    {
        let mut sorted = numbers;
        sorted.sort_unstable();
        Rising { numbers: sorted }
    }

    /// How many of the numbers are below another one.
    pub fn count_below(&self, n: u128) -> usize
        ensures { result ≡ count_by (λ x. nat_lt x n) self.now.numbers.items }
    {
        self.numbers.partition_point(|x| *x < n)
    }

    /// Whether one of the numbers lies in a range.
    pub fn is_some_in(&self, part: Range) -> bool
        ensures { result ≡ list_any (is_in part) self.now.numbers.items }
    {
        self.count_below(u128::from(part.start)) < self.count_below(part.end())
    }
}
