//! Numbers of sections and of symbols.
ghost use Rattle.std.specs.Prelude.{◌≡◌, ◌==◌};
ghost use Rattle.std.specs.List.Sorted.{IsNonDecreasing};
ghost use Rattle.elf_format.specs.Options.{is_one_of, is_some_and};

// Whether a number is one of some that rise.
pub(crate) fn contains(numbers: &[usize], number: usize) -> bool
    requires { IsNonDecreasing numbers.now }
    ensures { result ≡ is_one_of numbers.now number }
{
    numbers.binary_search(&number).is_ok()
}

// Whether a number is the one that is there.
pub(crate) fn is_numbered(number: Option<usize>, own: usize) -> bool
    ensures { result ≡ is_some_and (λ n. n == own) number }
{
    match number {
        Some(number) => number == own,
        None => false,
    }
}
