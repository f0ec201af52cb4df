//! The numbers of the kinds of edits. `arwen.h` has them too.

/// Adds an entry for a debugger.
pub const ELF_ADD_DEBUG_TAG: u32 = 1;

/// Adds needed libraries.
pub const ELF_ADD_NEEDED: u32 = 2;

/// Adds directories to the run path.
pub const ELF_ADD_RPATH: u32 = 3;

/// Takes the permission to run from the stack.
pub const ELF_CLEAR_EXEC_STACK: u32 = 4;

/// Clears the version of a symbol.
pub const ELF_CLEAR_SYMBOL_VERSION: u32 = 5;

/// Deletes sections.
pub const ELF_DELETE_SECTIONS: u32 = 6;

/// Deletes symbols.
pub const ELF_DELETE_SYMBOLS: u32 = 7;

/// Makes each DT_RUNPATH a DT_RPATH.
pub const ELF_FORCE_RPATH: u32 = 8;

/// Leaves out the default directories of libraries.
pub const ELF_NO_DEFAULT_LIB: u32 = 9;

/// Removes needed libraries.
pub const ELF_REMOVE_NEEDED: u32 = 10;

/// Removes the run path.
pub const ELF_REMOVE_RPATH: u32 = 11;

/// Gives dynamic symbols other names.
pub const ELF_RENAME_DYNAMIC_SYMBOLS: u32 = 12;

/// Gives sections other names.
pub const ELF_RENAME_SECTIONS: u32 = 13;

/// Gives symbols other names.
pub const ELF_RENAME_SYMBOLS: u32 = 14;

/// Replaces needed libraries with the versions that are needed of them.
pub const ELF_REPLACE_LIBRARY: u32 = 15;

/// Replaces needed libraries.
pub const ELF_REPLACE_NEEDED: u32 = 16;

/// Gives the stack the permission to run.
pub const ELF_SET_EXEC_STACK: u32 = 17;

/// Sets the interpreter.
pub const ELF_SET_INTERPRETER: u32 = 18;

/// Sets the ABI byte.
pub const ELF_SET_OS_ABI: u32 = 19;

/// Sets the page size.
pub const ELF_SET_PAGE_SIZE: u32 = 20;

/// Sets the run path.
pub const ELF_SET_RPATH: u32 = 21;

/// Sets the library's own name.
pub const ELF_SET_SONAME: u32 = 22;

/// Adds a run path.
pub const MACHO_ADD_RPATH: u32 = 101;

/// Changes the library's own name.
pub const MACHO_CHANGE_INSTALL_ID: u32 = 102;

/// Changes the name of a library that is loaded.
pub const MACHO_CHANGE_INSTALL_NAME: u32 = 103;

/// Changes a run path.
pub const MACHO_CHANGE_RPATH: u32 = 104;

/// Deletes a run path.
pub const MACHO_DELETE_RPATH: u32 = 105;
