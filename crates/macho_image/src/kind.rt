ghost use Rattle.std.specs.Prelude.{◌≡◌};
ghost use Rattle.macho_image.specs.Command.{is_dylib_kind, is_load_kind, is_text_kind};

use crate::command::{
    LC_ID_DYLIB, LC_LAZY_LOAD_DYLIB, LC_LOAD_DYLIB, LC_LOAD_UPWARD_DYLIB, LC_LOAD_WEAK_DYLIB,
    LC_REEXPORT_DYLIB, LC_RPATH,
};

/// Whether commands of this kind load a library.
pub fn is_load_kind(cmd: u32) -> bool
    ensures { result ≡ is_load_kind cmd }
{
    cmd == LC_LOAD_DYLIB
        || cmd == LC_LOAD_UPWARD_DYLIB
        || cmd == LC_REEXPORT_DYLIB
        || cmd == LC_LOAD_WEAK_DYLIB
        || cmd == LC_LAZY_LOAD_DYLIB
}

/// Whether commands of this kind name a library: one that is loaded, or the file itself.
pub fn is_dylib_kind(cmd: u32) -> bool
    ensures { result ≡ is_dylib_kind cmd }
{
    is_load_kind(cmd) || cmd == LC_ID_DYLIB
}

/// Whether commands of this kind hold a text.
pub fn is_text_kind(cmd: u32) -> bool
    ensures { result ≡ is_text_kind cmd }
{
    cmd == LC_RPATH || is_dylib_kind(cmd)
}
