// The first record of a table of which something is told.
ghost use Rattle.std.specs.Prelude.{◌≡◌, ◌<◌};
ghost use Rattle.elf_image_flaws.specs.Flaws.{first_record};

use crate::flaws::Flaw;

// What is told of a record by its number and its bytes, if anything.
pub(crate) trait RecordTest {
    ghost use Rattle.std.specs.Prelude.{ℕ, List, Option};
    ghost use Rattle.elf_image_flaws.specs.declared.flaws.Flaw.{Flaw};

    ghost told: { Self → ℕ → List ℕ → Option Flaw };

    // What is told of a record.
    fn told(&self, number: usize, bytes: &[u8]) -> Option<Flaw>
        ensures { result ≡ told self.now number bytes.now };
}

// What is told of the first record of a size of which something is told.
pub(crate) fn first_told<T: RecordTest>(test: &T, size: usize, bytes: &[u8]) -> Option<Flaw>
    requires { 0 < size }
    ensures { result ≡ first_record (T.told test.now) size bytes.now }
{
    let count = bytes.len() / size;
    let mut rest = bytes;
    for number in 0..count {
        let (first, after) = rest.split_at(size);
        if let Some(flaw) = test.told(number, first) {
            return Some(flaw);
        }
        rest = after;
    }
    None
}
