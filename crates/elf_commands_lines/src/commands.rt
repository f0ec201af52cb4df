//! The values of the commands for ELF files, of each with the word that names it.

/// Values that are a path alone.
pub mod path_alone {
    /// The file of a command.
    #[derive(Debug, Drop)]
    pub struct Args {
        /// Path to the file to change, or to read.
        pub path_to_binary: String,
    }
}

/// `add-debug-tag`: adds an entry for a debugger (gABI, Dynamic Section, DT_DEBUG).
pub mod add_debug_tag {
    pub use super::path_alone::Args;

    /// The word that names the command.
    pub const NAME: &str = "add-debug-tag";
}

/// `clear-exec-stack`: takes the permission to run from the stack (GNU extension, PT_GNU_STACK).
pub mod clear_execstack {
    pub use super::path_alone::Args;

    /// The word that names the command.
    pub const NAME: &str = "clear-exec-stack";
}

/// `force-rpath`: makes every DT_RUNPATH a DT_RPATH (gABI, Dynamic Section).
pub mod force_rpath {
    pub use super::path_alone::Args;

    /// The word that names the command.
    pub const NAME: &str = "force-rpath";
}

/// `no-default-lib`: leaves out the default directories of libraries (DT_FLAGS_1, DF_1_NODEFLIB).
pub mod no_default_lib {
    pub use super::path_alone::Args;

    /// The word that names the command.
    pub const NAME: &str = "no-default-lib";
}

/// `remove-rpath`: removes the run path (gABI, Dynamic Section).
pub mod remove_rpath {
    pub use super::path_alone::Args;

    /// The word that names the command.
    pub const NAME: &str = "remove-rpath";
}

/// `set-exec-stack`: gives the stack the permission to run (GNU extension, PT_GNU_STACK).
pub mod set_execstack {
    pub use super::path_alone::Args;

    /// The word that names the command.
    pub const NAME: &str = "set-exec-stack";
}

/// `add-rpath`: adds a directory to the run path (gABI, Dynamic Section).
pub mod add_rpath {
    /// The word that names the command.
    pub const NAME: &str = "add-rpath";

    /// The values of the command.
    #[derive(Debug, Drop)]
    pub struct Args {
        /// Directory to add.
        pub new_rpath: String,
        /// Path to the file to change.
        pub path_to_binary: String,
    }
}

/// `set-rpath`: sets the run path (gABI, Dynamic Section).
pub mod set_rpath {
    /// The word that names the command.
    pub const NAME: &str = "set-rpath";

    /// The values of the command.
    #[derive(Debug, Drop)]
    pub struct Args {
        /// Directories, with a colon between two.
        pub new_rpath: String,
        /// Path to the file to change.
        pub path_to_binary: String,
    }
}

/// `set-interpreter`: sets the interpreter (gABI, Program Interpreter).
pub mod set_interpreter {
    /// The word that names the command.
    pub const NAME: &str = "set-interpreter";

    /// The values of the command.
    #[derive(Debug, Drop)]
    pub struct Args {
        /// Path of the interpreter.
        pub interpreter: String,
        /// Path to the file to change.
        pub path_to_binary: String,
    }
}

/// `set-os-abi`: sets the ABI byte (gABI, ELF Identification, EI_OSABI).
pub mod set_os_abi {
    /// The word that names the command.
    pub const NAME: &str = "set-os-abi";

    /// The values of the command.
    #[derive(Debug, Drop)]
    pub struct Args {
        /// Name of the ABI.
        pub os_abi: String,
        /// Path to the file to change.
        pub path_to_binary: String,
    }
}

/// `set-soname`: sets the library's own name (gABI, Dynamic Section, DT_SONAME).
pub mod set_soname {
    /// The word that names the command.
    pub const NAME: &str = "set-soname";

    /// The values of the command.
    #[derive(Debug, Drop)]
    pub struct Args {
        /// New name.
        pub soname: String,
        /// Path to the file to change.
        pub path_to_binary: String,
    }
}

/// `set-page-size`: sets the page size (gABI, Program Header, p_align of each PT_LOAD).
pub mod set_page_size {
    /// The word that names the command.
    pub const NAME: &str = "set-page-size";

    /// The values of the command.
    #[derive(Debug, Drop)]
    pub struct Args {
        /// Page size in bytes, a power of two from 1,024 on.
        pub page_size: u32,
        /// Path to the file to change.
        pub path_to_binary: String,
    }
}

/// `clear-symbol-version`: makes the version of symbols of a name that of a global symbol (GNU symbol versioning).
pub mod clear_version_symbol {
    /// The word that names the command.
    pub const NAME: &str = "clear-symbol-version";

    /// The values of the command.
    #[derive(Debug, Drop)]
    pub struct Args {
        /// Name of the dynamic symbols.
        pub symbol: String,
        /// Path to the file to change.
        pub path_to_binary: String,
    }
}

/// `add-needed`: adds needed libraries (gABI, Dynamic Section, DT_NEEDED).
pub mod add_needed {
    /// The word that names the command.
    pub const NAME: &str = "add-needed";

    /// The values of the command.
    #[derive(Debug, Drop)]
    pub struct Args {
        /// Path to the file to change.
        pub path_to_binary: String,
        /// Names of the libraries to add.
        pub dt_needed: Vec<String>,
    }
}

/// `remove-needed`: removes needed libraries (gABI, Dynamic Section, DT_NEEDED).
pub mod remove_needed {
    /// The word that names the command.
    pub const NAME: &str = "remove-needed";

    /// The values of the command.
    #[derive(Debug, Drop)]
    pub struct Args {
        /// Path to the file to change.
        pub path_to_binary: String,
        /// Names of the libraries to remove.
        pub dt_needed: Vec<String>,
    }
}

/// `replace-needed`: replaces needed libraries, all at once (gABI, Dynamic Section, DT_NEEDED).
pub mod replace_needed {
    /// The word that names the command.
    pub const NAME: &str = "replace-needed";

    /// The values of the command.
    #[derive(Debug, Drop)]
    pub struct Args {
        /// Path to the file to change.
        pub path_to_binary: String,
        /// Pairs of an old and a new name; of a repeated old name the last pair counts.
        pub dt_needed: Vec<(String, String)>,
    }
}

/// `replace-library`: replaces needed libraries, all at once, with the versions that are needed of them (gABI, Dynamic Section,
/// DT_NEEDED; GNU symbol versioning, `Elfxx_Verneed`, `vn_file`).
pub mod replace_library {
    /// The word that names the command.
    pub const NAME: &str = "replace-library";

    /// The values of the command.
    #[derive(Debug, Drop)]
    pub struct Args {
        /// Path to the file to change.
        pub path_to_binary: String,
        /// Pairs of an old and a new name; of a repeated old name the last pair counts.
        pub libraries: Vec<(String, String)>,
    }
}

/// `rename-dynamic-symbols`: gives dynamic symbols other names, all at once (gABI, Symbol Table, st_name).
pub mod rename_dynamic_symbols {
    /// The word that names the command.
    pub const NAME: &str = "rename-dynamic-symbols";

    /// The values of the command.
    #[derive(Debug, Drop)]
    pub struct Args {
        /// Path to the file to change.
        pub path_to_binary: String,
        /// Pairs of an old and a new name; of a repeated old name the last pair counts.
        pub rename_symbols: Vec<(String, String)>,
    }
}

/// `apply`: makes several edits, all or none.
pub mod apply {
    /// The word that names the command.
    pub const NAME: &str = "apply";

    /// The values of the command.
    #[derive(Debug, Drop)]
    pub struct Args {
        /// Path to the file to change.
        pub path_to_binary: String,
        /// The words of the edits, with a word `+` between two edits.
        pub edits: Vec<String>,
    }
}

/// `shrink-rpath`: leaves out of the run path the directories that have no needed library.
pub mod shrink_rpath {
    /// The word that names the command.
    pub const NAME: &str = "shrink-rpath";

    /// The values of the command.
    #[derive(Debug, Drop)]
    pub struct Args {
        /// Path to the file to change.
        pub path_to_binary: String,
        /// Prefixes that are allowed: directories that none begins are left out too. None allow all.
        pub allowed_rpath_prefixes: Vec<String>,
    }
}

/// `rename-symbols`: gives symbols other names, all at once, for link editors and for the loader (gABI, Symbol Table, st_name).
pub mod rename_symbols {
    /// The word that names the command.
    pub const NAME: &str = "rename-symbols";

    /// The values of the command.
    #[derive(Debug, Drop)]
    pub struct Args {
        /// Path to the file to change.
        pub path_to_binary: String,
        /// Pairs of an old and a new name; of a repeated old name the last pair counts.
        pub rename_symbols: Vec<(String, String)>,
    }
}

/// `delete-symbols`: deletes symbols, for link editors and for the loader (gABI, Symbol Table).
pub mod delete_symbols {
    /// The word that names the command.
    pub const NAME: &str = "delete-symbols";

    /// The values of the command.
    #[derive(Debug, Drop)]
    pub struct Args {
        /// Path to the file to change.
        pub path_to_binary: String,
        /// Names of the symbols to delete.
        pub symbols: Vec<String>,
    }
}

/// `rename-sections`: gives sections other names, all at once (gABI, Sections, sh_name).
pub mod rename_sections {
    /// The word that names the command.
    pub const NAME: &str = "rename-sections";

    /// The values of the command.
    #[derive(Debug, Drop)]
    pub struct Args {
        /// Path to the file to change.
        pub path_to_binary: String,
        /// Pairs of an old and a new name; of a repeated old name the last pair counts.
        pub rename_sections: Vec<(String, String)>,
    }
}

/// `delete-sections`: deletes sections, with what goes along (gABI, Sections).
pub mod delete_sections {
    /// The word that names the command.
    pub const NAME: &str = "delete-sections";

    /// The values of the command.
    #[derive(Debug, Drop)]
    pub struct Args {
        /// Path to the file to change.
        pub path_to_binary: String,
        /// Names of the sections to delete.
        pub sections: Vec<String>,
    }
}

/// `print-rpath`: prints the run path.
pub mod print_rpath {
    pub use super::path_alone::Args;

    /// The word that names the command.
    pub const NAME: &str = "print-rpath";
}

/// `print-needed`: prints the needed libraries.
pub mod print_needed {
    pub use super::path_alone::Args;

    /// The word that names the command.
    pub const NAME: &str = "print-needed";
}

/// `print-soname`: prints the library's own name.
pub mod print_soname {
    pub use super::path_alone::Args;

    /// The word that names the command.
    pub const NAME: &str = "print-soname";
}

/// `print-interpreter`: prints the interpreter.
pub mod print_interpreter {
    pub use super::path_alone::Args;

    /// The word that names the command.
    pub const NAME: &str = "print-interpreter";
}

/// `print-os-abi`: prints the ABI byte.
pub mod print_os_abi {
    pub use super::path_alone::Args;

    /// The word that names the command.
    pub const NAME: &str = "print-os-abi";
}

/// `print-exec-stack`: prints whether the stack may be run.
pub mod print_execstack {
    pub use super::path_alone::Args;

    /// The word that names the command.
    pub const NAME: &str = "print-exec-stack";
}
