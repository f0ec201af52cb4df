//! Names of ABIs (gABI, ELF Identification, `EI_OSABI`), and an interpreter's bytes.
ghost use Rattle.std.specs.Prelude.{◌≡◌, IfOk, map};
ghost use Rattle.std.specs.Char.{to_ascii_lowercase};
ghost use Rattle.std.specs.Str.{bytes_eq};
ghost use Rattle.elf_edits.specs.Abi.{abi_names, abi_number as number_of_name, hurd_and_later, irix_and_later, lowercase_name, number_among, openvms_and_later, with_nul as stored_with_nul};

use std::alloc::{AllocError, Global};

// Whether a name is this one but for the case of its ASCII letters.
fn is_name(name: &str, own: &str) -> bool
    requires { map to_ascii_lowercase own.now ≡ own.now }
    ensures { result ≡ bytes_eq (lowercase_name name.now) own.now }
{
    name.eq_ignore_ascii_case(own)
}

fn openvms_or_later(name: &str) -> Option<u8>
    ensures { result ≡ number_among openvms_and_later (lowercase_name name.now) }
{
    if is_name(name, "openvms") {
        Some(13)
    } else if is_name(name, "nsk") {
        Some(14)
    } else if is_name(name, "aros") {
        Some(15)
    } else if is_name(name, "fenixos") {
        Some(16)
    } else if is_name(name, "cloudabi") {
        Some(17)
    } else {
        None
    }
}

fn irix_or_later(name: &str) -> Option<u8>
    ensures { result ≡ number_among irix_and_later (lowercase_name name.now) }
{
    if is_name(name, "irix") {
        Some(8)
    } else if is_name(name, "freebsd") {
        Some(9)
    } else if is_name(name, "tru64") {
        Some(10)
    } else if is_name(name, "modesto") {
        Some(11)
    } else if is_name(name, "openbsd") {
        Some(12)
    } else {
        openvms_or_later(name)
    }
}

fn hurd_or_later(name: &str) -> Option<u8>
    ensures { result ≡ number_among hurd_and_later (lowercase_name name.now) }
{
    if is_name(name, "hurd") || is_name(name, "gnu-hurd") || is_name(name, "gnu hurd") {
        Some(4)
    } else if is_name(name, "solaris") {
        Some(6)
    } else if is_name(name, "aix") {
        Some(7)
    } else {
        irix_or_later(name)
    }
}

/// The ABI byte of a name, whatever the case of its ASCII letters; `None` for an unknown name. Takes no memory.
#[tactic(auto, unfolding(crate::specs::Abi::abi_number))]
pub fn abi_number(name: &str) -> Option<u8>
    ensures { result ≡ number_of_name name.now }
{
    if is_name(name, "sysv") {
        Some(0)
    } else if is_name(name, "hpux") {
        Some(1)
    } else if is_name(name, "netbsd") {
        Some(2)
    } else if is_name(name, "linux") {
        Some(3)
    } else {
        hurd_or_later(name)
    }
}

/// What is stored of an interpreter's bytes (gABI, Program Interpreter): a NUL is put behind them, unless they are
/// empty or end with one. Error: `AllocError`.
pub fn with_nul(alloc: Global, bytes: &[u8]) -> Result<Vec<u8>, AllocError>
    ensures { IfOk result (λ made. made.items ≡ stored_with_nul bytes.now) }
{
    let mut made = Vec::from_slice(alloc, bytes)?;
    if !bytes.is_empty() && !bytes.ends_with(&[0]) {
        made.push(0)?;
    }
    Ok(made)
}
