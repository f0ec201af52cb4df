//! The rows of the commands for ELF files, as help shows them.
ghost use Rattle.std.specs.Prelude.{◌≡◌, map};
ghost use Rattle.command_words.specs.Rows.{named_of, row_model};
ghost use Rattle.elf_commands_lines.specs.Meaning.{elf_lines};

use crate::commands::{
    add_debug_tag, add_needed, add_rpath, apply, clear_execstack, clear_version_symbol,
    delete_sections, delete_symbols, force_rpath, no_default_lib, print_execstack,
    print_interpreter, print_needed, print_os_abi, print_rpath, print_soname, remove_needed,
    remove_rpath, rename_dynamic_symbols, rename_sections, rename_symbols, replace_library,
    replace_needed, set_execstack, set_interpreter, set_os_abi, set_page_size, set_rpath,
    set_soname, shrink_rpath,
};
use command_words::{Row, Value, ValueForm, ValueOption};

/// What help says of `apply` of edits of an ELF file below its values.
const ELF_EDITS: &str = "Edits:
  add-debug-tag
  clear-exec-stack
  force-rpath
  no-default-lib
  remove-rpath
  set-exec-stack
  add-rpath <NEW>
  set-rpath <NEW>
  set-interpreter <INTERPRETER>
  set-os-abi <ABI>
  set-soname <NAME>
  set-page-size <SIZE>
  clear-symbol-version <SYMBOL>
  add-needed [NEW]...
  remove-needed [OLD]...
  replace-needed [OLD=NEW]...
  replace-library [OLD=NEW]...
  rename-dynamic-symbols [OLD=NEW]...
  rename-symbols [OLD=NEW]...
  delete-symbols [NAME]...
  rename-sections [OLD=NEW]...
  delete-sections [NAME]...

With --move-dynamic, the dynamic section may move, to make room for entries and program headers.

Example:
  arwen elf apply libgreet.so set-soname libgreet.so.1 + add-rpath /opt/lib
";

/// What help says of an edit below its values.
const MOVED: &str =
    "With --move-dynamic, the dynamic section may move, to make room for entries and program headers.
";

/// The commands for ELF files.
static ELF_ROWS: [Row; 30] = [
    Row {
        name: add_debug_tag::NAME,
        about: "Add an entry for a debugger",
        form: ValueForm::Path,
        is_edit: true,
        more: MOVED,
    },
    Row {
        name: clear_execstack::NAME,
        about: "Take the permission to run from the stack",
        form: ValueForm::Path,
        is_edit: true,
        more: MOVED,
    },
    Row {
        name: force_rpath::NAME,
        about: "Make every DT_RUNPATH a DT_RPATH",
        form: ValueForm::Path,
        is_edit: true,
        more: MOVED,
    },
    Row {
        name: no_default_lib::NAME,
        about: "Leave out the default directories",
        form: ValueForm::Path,
        is_edit: true,
        more: MOVED,
    },
    Row {
        name: remove_rpath::NAME,
        about: "Remove the run path",
        form: ValueForm::Path,
        is_edit: true,
        more: MOVED,
    },
    Row {
        name: set_execstack::NAME,
        about: "Give the stack the permission to run",
        form: ValueForm::Path,
        is_edit: true,
        more: MOVED,
    },
    Row {
        name: add_rpath::NAME,
        about: "Add a directory to the run path",
        form: ValueForm::Text(Value {
            name: "NEW",
            help: "Directory to add",
        }),
        is_edit: true,
        more: MOVED,
    },
    Row {
        name: set_rpath::NAME,
        about: "Set the run path",
        form: ValueForm::Text(Value {
            name: "NEW",
            help: "Directories, with a colon between two",
        }),
        is_edit: true,
        more: MOVED,
    },
    Row {
        name: set_interpreter::NAME,
        about: "Set the interpreter",
        form: ValueForm::Text(Value {
            name: "INTERPRETER",
            help: "Path of the interpreter",
        }),
        is_edit: true,
        more: MOVED,
    },
    Row {
        name: set_os_abi::NAME,
        about: "Set the ABI byte",
        form: ValueForm::Text(Value {
            name: "ABI",
            help: "Name of the ABI",
        }),
        is_edit: true,
        more: MOVED,
    },
    Row {
        name: set_soname::NAME,
        about: "Set the library's own name",
        form: ValueForm::Text(Value {
            name: "NAME",
            help: "New name",
        }),
        is_edit: true,
        more: MOVED,
    },
    Row {
        name: set_page_size::NAME,
        about: "Set the page size",
        form: ValueForm::Text(Value {
            name: "SIZE",
            help: "Bytes, a power of two from 1024 on",
        }),
        is_edit: true,
        more: MOVED,
    },
    Row {
        name: clear_version_symbol::NAME,
        about: "Clear the version of dynamic symbols",
        form: ValueForm::Text(Value {
            name: "SYMBOL",
            help: "Name of the symbols",
        }),
        is_edit: true,
        more: MOVED,
    },
    Row {
        name: add_needed::NAME,
        about: "Add needed libraries",
        form: ValueForm::Words(Value {
            name: "NEW",
            help: "Names of the libraries",
        }),
        is_edit: true,
        more: MOVED,
    },
    Row {
        name: remove_needed::NAME,
        about: "Remove needed libraries",
        form: ValueForm::Words(Value {
            name: "OLD",
            help: "Names of the libraries",
        }),
        is_edit: true,
        more: MOVED,
    },
    Row {
        name: replace_needed::NAME,
        about: "Replace needed libraries, all at once",
        form: ValueForm::Words(Value {
            name: "OLD=NEW",
            help: "Pairs of an old and a new name",
        }),
        is_edit: true,
        more: MOVED,
    },
    Row {
        name: replace_library::NAME,
        about: "Replace libraries with the versions needed of them, all at once",
        form: ValueForm::Words(Value {
            name: "OLD=NEW",
            help: "Pairs of an old and a new name",
        }),
        is_edit: true,
        more: MOVED,
    },
    Row {
        name: rename_dynamic_symbols::NAME,
        about: "Rename dynamic symbols, all at once",
        form: ValueForm::Words(Value {
            name: "OLD=NEW",
            help: "Pairs of an old and a new name",
        }),
        is_edit: true,
        more: MOVED,
    },
    Row {
        name: apply::NAME,
        about: "Make several edits, all or none",
        form: ValueForm::Words(Value {
            name: "EDITS",
            help: "Edits with their words, with a word `+` between two edits",
        }),
        is_edit: false,
        more: ELF_EDITS,
    },
    Row {
        name: shrink_rpath::NAME,
        about: "Leave out of the run path directories that have no needed library",
        form: ValueForm::Options(ValueOption {
            long: "allowed-rpath-prefixes",
            short: 'a',
            value: Value {
                name: "PREFIX",
                help: "Leave out directories too that no such prefix begins",
            },
        }),
        is_edit: false,
        more: "",
    },
    Row {
        name: rename_symbols::NAME,
        about: "Rename symbols for link editors and the loader, all at once",
        form: ValueForm::Words(Value {
            name: "OLD=NEW",
            help: "Pairs of an old and a new name",
        }),
        is_edit: true,
        more: MOVED,
    },
    Row {
        name: delete_symbols::NAME,
        about: "Delete symbols for link editors and the loader",
        form: ValueForm::Words(Value {
            name: "NAME",
            help: "Names of the symbols",
        }),
        is_edit: true,
        more: MOVED,
    },
    Row {
        name: rename_sections::NAME,
        about: "Rename sections, all at once",
        form: ValueForm::Words(Value {
            name: "OLD=NEW",
            help: "Pairs of an old and a new name",
        }),
        is_edit: true,
        more: MOVED,
    },
    Row {
        name: delete_sections::NAME,
        about: "Delete sections",
        form: ValueForm::Words(Value {
            name: "NAME",
            help: "Names of the sections",
        }),
        is_edit: true,
        more: MOVED,
    },
    Row {
        name: print_rpath::NAME,
        about: "Print the run path",
        form: ValueForm::Path,
        is_edit: false,
        more: "",
    },
    Row {
        name: print_needed::NAME,
        about: "Print the needed libraries",
        form: ValueForm::Path,
        is_edit: false,
        more: "",
    },
    Row {
        name: print_soname::NAME,
        about: "Print the library's own name",
        form: ValueForm::Path,
        is_edit: false,
        more: "",
    },
    Row {
        name: print_interpreter::NAME,
        about: "Print the interpreter",
        form: ValueForm::Path,
        is_edit: false,
        more: "",
    },
    Row {
        name: print_os_abi::NAME,
        about: "Print the ABI byte",
        form: ValueForm::Path,
        is_edit: false,
        more: "",
    },
    Row {
        name: print_execstack::NAME,
        about: "Print whether the stack may be run",
        form: ValueForm::Path,
        is_edit: false,
        more: "",
    },
];

/// The commands for ELF files, as a slice.
pub fn elf_table() -> &'static [Row]
    ensures { map row_model result.now ≡ map named_of elf_lines }
{
    ELF_ROWS.as_slice()
}
