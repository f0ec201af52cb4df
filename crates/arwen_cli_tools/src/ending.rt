//! How lines end.
ghost use Rattle.std.specs.Prelude.{◌≡◌, ◌++◌, IfOk, string_bytes};
ghost use Rattle.arwen_cli_tools.specs.Endings.{status_of};

use std::alloc::{AllocError, Global};

/// How a line ends.
#[derive(Drop)]
pub enum Ending {
    /// All that it asks for is done.
    Done,
    /// It asks for a text alone: this one.
    Told(String),
    /// It is refused, or what it asks for isn't all done: this line tells why.
    Failed(String),
}

impl Ending {
    /// The status that the program ends with.
    pub fn status(&self) -> u8
        ensures { result ≡ status_of self.now }
    {
        match self {
            Ending::Done | Ending::Told(_) => 0,
            Ending::Failed(_) => 1,
        }
    }
}

/// A text, and another behind it. Error: `AllocError`.
pub(crate) fn joined(alloc: Global, first: &str, second: &str) -> Result<String, AllocError>
    ensures { IfOk result (λ text. string_bytes text ≡ first.now ++ second.now) }
{
    let mut text = String::from_str(alloc, first)?;
    text.push_str(second)?;
    Ok(text)
}

/// Three texts, one behind another. Error: `AllocError`.
pub(crate) fn three(
    alloc: Global,
    first: &str,
    second: &str,
    third: &str,
) -> Result<String, AllocError>
    ensures { IfOk result (λ text.
        string_bytes text ≡ first.now ++ (second.now ++ third.now)) }
{
    let mut text = String::from_str(alloc, first)?;
    text.push_str(second)?;
    text.push_str(third)?;
    Ok(text)
}
