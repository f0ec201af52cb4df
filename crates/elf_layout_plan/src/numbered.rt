ghost use Rattle.std.specs.Prelude.{◌≡◌, ◌==◌};
ghost use Rattle.elf_format.specs.Options.{is_some_and};

/// Whether a section that had a number at read is the one with another number, where there is such a number.
pub fn is_numbered(number: Option<usize>, own: usize) -> bool
    ensures { result ≡ is_some_and (λ n. n == own) number }
{
    match number {
        Some(number) => number == own,
        None => false,
    }
}
