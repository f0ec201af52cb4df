//! Counts of calls that failed.
ghost use Rattle.std.specs.Prelude.{◌≡◌};
ghost use Rattle.byte_store.specs.Counts.{CountsCall, CountsOne, CountsWrite};

/// How many calls failed. The count stays at `u64::MAX` once it is there.
#[derive(Clone, Copy, Debug)]
pub struct Failures {
    /// The count.
    pub count: u64,
}

impl Failures {
    /// No failures so far.
    pub fn none() -> Failures
        ensures { result.count ≡ 0 }
    {
        Failures { count: 0 }
    }

    /// Counts one failure more.
    pub fn count_one(&mut self)
        ensures { CountsOne self.old.count self.new.count }
    {
        self.count = self.count.saturating_add(1);
    }

    /// Counts a call's answer, if it is an error.
    pub fn count_call<T, E>(&mut self, answer: &Result<T, E>)
        ensures { CountsCall answer.now self.old.count self.new.count }
    {
        if answer.is_err() {
            self.count_one();
        }
    }

    /// Counts the answer of a write of so many bytes, if it is an error, or if no byte was taken of some.
    pub fn count_write<E>(&mut self, answer: &Result<usize, E>, room: usize)
        ensures { CountsWrite answer.now room self.old.count self.new.count }
    {
        match answer {
            Ok(0) if room > 0 => self.count_one(),
            Ok(_) => {}
            Err(_) => self.count_one(),
        }
    }
}
