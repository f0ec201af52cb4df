//! The commands for Mach-O files, as help shows them.
ghost use Rattle.std.specs.Prelude.{◌≡◌, map};
ghost use Rattle.command_words.specs.Rows.{named_of, row_model};
ghost use Rattle.macho_commands.specs.Meaning.{macho_lines};

use crate::commands::{add, apply, change, delete, install_id, install_name, sign, verify};
use command_words::{Row, Value, ValueForm};

/// What help says of `apply` below its values.
const EDITS: &str = "Edits:
  delete-rpath <OLD>
  change-rpath <OLD> <NEW>
  add-rpath <NEW>
  change-install-name <OLD> <NEW>
  change-install-id <NEW>

With --sign, the pages that they touched fit again in ad-hoc code signatures.

Example:
  arwen macho apply libgreet.dylib add-rpath /opt/lib + delete-rpath /usr/local/lib
";

/// What help says of `verify` below its values.
const VERIFIED: &str = "Status 1 where some page does not fit.
";

/// What help says of an edit below its values.
const SIGNED: &str =
    "With --sign, the pages that the edit touched fit again in ad-hoc code signatures.
";

/// The commands for Mach-O files.
pub static MACHO_ROWS: [Row; 8] = [
    Row {
        name: delete::NAME,
        about: "Remove a run path",
        form: ValueForm::Text(Value {
            name: "OLD",
            help: "Run path to remove",
        }),
        is_edit: true,
        more: SIGNED,
    },
    Row {
        name: change::NAME,
        about: "Put a run path in the place of another",
        form: ValueForm::Texts(
            Value {
                name: "OLD",
                help: "Run path to replace",
            },
            Value {
                name: "NEW",
                help: "Run path to put in its place",
            },
        ),
        is_edit: true,
        more: SIGNED,
    },
    Row {
        name: add::NAME,
        about: "Add a run path",
        form: ValueForm::Text(Value {
            name: "NEW",
            help: "Run path to add",
        }),
        is_edit: true,
        more: SIGNED,
    },
    Row {
        name: install_name::NAME,
        about: "Put a library name in the place of another",
        form: ValueForm::Texts(
            Value {
                name: "OLD",
                help: "Library name to replace",
            },
            Value {
                name: "NEW",
                help: "Library name to put in its place",
            },
        ),
        is_edit: true,
        more: SIGNED,
    },
    Row {
        name: install_id::NAME,
        about: "Change the install id of a shared library",
        form: ValueForm::Text(Value {
            name: "NEW",
            help: "New install id",
        }),
        is_edit: true,
        more: SIGNED,
    },
    Row {
        name: apply::NAME,
        about: "Make several edits, all or none",
        form: ValueForm::Words(Value {
            name: "EDIT",
            help: "Edits without their file, with a word + between two",
        }),
        is_edit: false,
        more: EDITS,
    },
    Row {
        name: sign::NAME,
        about: "Make all pages of ad-hoc code signatures fit",
        form: ValueForm::Path,
        is_edit: false,
        more: "",
    },
    Row {
        name: verify::NAME,
        about: "Tell whether the pages of code signatures fit",
        form: ValueForm::Path,
        is_edit: false,
        more: VERIFIED,
    },
];

/// The commands for Mach-O files, as a slice.
pub fn macho_table() -> &'static [Row]
    ensures { map row_model result.now ≡ map named_of macho_lines }
{
    MACHO_ROWS.as_slice()
}
