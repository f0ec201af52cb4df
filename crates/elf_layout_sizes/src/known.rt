//! The dynamic strings, whose table is made once, for its size and for its bytes.
ghost use Rattle.std.specs.Prelude.{◌≡◌, IfOk, IfSome, MatchOption, length};
ghost use Rattle.elf_layout_sizes.specs.KnownTables.{IsKnown, IsKnownTable};

use crate::strings::made_for;
use crate::users::Users;
use elf_layout_plan::{Finished, TableFault};
use std::alloc::{AllocError, Global};

// A string table with its number at read, where it is made anew; `None` where it is copied.
#[derive(Drop)]
pub(crate) struct Known<'t> {
    pub(crate) number: usize,
    pub(crate) made: Option<Finished<'t>>,
}

impl<'t> Known<'t> {
    // The table's size, which was this one at read.
    pub(crate) fn size(&self, old: u64) -> u64
        ensures { MatchOption self.now.made (result ≡ old)
            (λ table. result ≡ length table.bytes) }
    {
        match &self.made {
            Some(table) => table.bytes().len() as u64,
            None => old,
        }
    }
}

// The string table with a number; `None` where it is too long.
fn known_table<'a, 'data>(
    alloc: Global,
    users: &Users<'a, 'data>,
    read_users: &Users<'a, 'data>,
    number: usize,
) -> Result<Option<Known<'a>>, AllocError>
    requires { read_users.now ≡ record { read = users.now.read; image = users.now.read } }
    ensures { IfOk result (λ known. IfSome known
        (IsKnownTable users.now.read users.now.image number)) }
{
    match made_for(alloc, users, read_users, number) {
        Ok(made) => Ok(Some(Known { number, made })),
        Err(TableFault::NumberTooLarge) => Ok(None),
        Err(TableFault::Memory) => Err(AllocError),
    }
}

// The table of the dynamic strings; `None` where there are none, or the table is too long.
pub(crate) fn known_strings<'a, 'data>(
    alloc: Global,
    users: &Users<'a, 'data>,
    read_users: &Users<'a, 'data>,
) -> Result<Option<Known<'a>>, AllocError>
    requires { read_users.now ≡ record { read = users.now.read; image = users.now.read } }
    ensures { IfOk result (λ known. IfSome known (IsKnown users.now.read users.now.image)) }
{
    match users.strings_link() {
        Some(number) => known_table(alloc, users, read_users, number),
        None => Ok(None),
    }
}
