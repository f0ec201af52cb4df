//! The options of the peers.
ghost use Rattle.std.specs.Prelude.{◌≡◌, map};
ghost use Rattle.arwen_cli_options.specs.Options.{row_model};
ghost use Rattle.arwen_cli_options.specs.Tables.{install_name_tool_known, patchelf_known};

use crate::options::{Form, OptionRow};

/// The options of patchelf 0.18.
static PATCHELF: [OptionRow; 33] = [
    OptionRow {
        word: "--interpreter",
        name: "--set-interpreter",
        form: Form::One,
    },
    OptionRow {
        word: "--set-interpreter",
        name: "--set-interpreter",
        form: Form::One,
    },
    OptionRow {
        word: "--page-size",
        name: "--page-size",
        form: Form::One,
    },
    OptionRow {
        word: "--print-interpreter",
        name: "--print-interpreter",
        form: Form::Flag,
    },
    OptionRow {
        word: "--print-os-abi",
        name: "--print-os-abi",
        form: Form::Flag,
    },
    OptionRow {
        word: "--set-os-abi",
        name: "--set-os-abi",
        form: Form::One,
    },
    OptionRow {
        word: "--print-soname",
        name: "--print-soname",
        form: Form::Flag,
    },
    OptionRow {
        word: "--set-soname",
        name: "--set-soname",
        form: Form::One,
    },
    OptionRow {
        word: "--remove-rpath",
        name: "--remove-rpath",
        form: Form::Flag,
    },
    OptionRow {
        word: "--shrink-rpath",
        name: "--shrink-rpath",
        form: Form::Flag,
    },
    OptionRow {
        word: "--allowed-rpath-prefixes",
        name: "--allowed-rpath-prefixes",
        form: Form::One,
    },
    OptionRow {
        word: "--set-rpath",
        name: "--set-rpath",
        form: Form::One,
    },
    OptionRow {
        word: "--add-rpath",
        name: "--add-rpath",
        form: Form::One,
    },
    OptionRow {
        word: "--print-rpath",
        name: "--print-rpath",
        form: Form::Flag,
    },
    OptionRow {
        word: "--force-rpath",
        name: "--force-rpath",
        form: Form::Flag,
    },
    OptionRow {
        word: "--print-needed",
        name: "--print-needed",
        form: Form::Flag,
    },
    OptionRow {
        word: "--no-sort",
        name: "--no-sort",
        form: Form::Flag,
    },
    OptionRow {
        word: "--add-needed",
        name: "--add-needed",
        form: Form::One,
    },
    OptionRow {
        word: "--remove-needed",
        name: "--remove-needed",
        form: Form::One,
    },
    OptionRow {
        word: "--replace-needed",
        name: "--replace-needed",
        form: Form::Two,
    },
    OptionRow {
        word: "--clear-symbol-version",
        name: "--clear-symbol-version",
        form: Form::One,
    },
    OptionRow {
        word: "--print-execstack",
        name: "--print-execstack",
        form: Form::Flag,
    },
    OptionRow {
        word: "--clear-execstack",
        name: "--clear-execstack",
        form: Form::Flag,
    },
    OptionRow {
        word: "--set-execstack",
        name: "--set-execstack",
        form: Form::Flag,
    },
    OptionRow {
        word: "--output",
        name: "--output",
        form: Form::One,
    },
    OptionRow {
        word: "--debug",
        name: "--debug",
        form: Form::Flag,
    },
    OptionRow {
        word: "--no-default-lib",
        name: "--no-default-lib",
        form: Form::Flag,
    },
    OptionRow {
        word: "--add-debug-tag",
        name: "--add-debug-tag",
        form: Form::Flag,
    },
    OptionRow {
        word: "--rename-dynamic-symbols",
        name: "--rename-dynamic-symbols",
        form: Form::One,
    },
    OptionRow {
        word: "--no-clobber-old-sections",
        name: "--no-clobber-old-sections",
        form: Form::Flag,
    },
    OptionRow {
        word: "--help",
        name: "--help",
        form: Form::Help,
    },
    OptionRow {
        word: "-h",
        name: "--help",
        form: Form::Help,
    },
    OptionRow {
        word: "--version",
        name: "--version",
        form: Form::Version,
    },
];

/// The options of install_name_tool.
static INSTALL_NAME_TOOL: [OptionRow; 11] = [
    OptionRow {
        word: "-add_rpath",
        name: "-add_rpath",
        form: Form::One,
    },
    OptionRow {
        word: "-prepend_rpath",
        name: "-prepend_rpath",
        form: Form::One,
    },
    OptionRow {
        word: "-rpath",
        name: "-rpath",
        form: Form::Two,
    },
    OptionRow {
        word: "-delete_rpath",
        name: "-delete_rpath",
        form: Form::One,
    },
    OptionRow {
        word: "-delete_all_rpaths",
        name: "-delete_all_rpaths",
        form: Form::Flag,
    },
    OptionRow {
        word: "-change",
        name: "-change",
        form: Form::Two,
    },
    OptionRow {
        word: "-id",
        name: "-id",
        form: Form::One,
    },
    OptionRow {
        word: "-V",
        name: "-V",
        form: Form::Version,
    },
    OptionRow {
        word: "--version",
        name: "-V",
        form: Form::Version,
    },
    OptionRow {
        word: "-h",
        name: "--help",
        form: Form::Help,
    },
    OptionRow {
        word: "--help",
        name: "--help",
        form: Form::Help,
    },
];

/// The options of patchelf 0.18.
pub fn patchelf_options() -> &'static [OptionRow]
    ensures { map row_model result.now ≡ patchelf_known }
{
    PATCHELF.as_slice()
}

/// The options of install_name_tool, Apple's and LLVM's.
pub fn install_name_tool_options() -> &'static [OptionRow]
    ensures { map row_model result.now ≡ install_name_tool_known }
{
    INSTALL_NAME_TOOL.as_slice()
}
