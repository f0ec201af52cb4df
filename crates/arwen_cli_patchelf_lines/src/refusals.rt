//! What lines ask for that is refused before a file is edited.
ghost use Rattle.std.specs.Prelude.{◌≡◌, map, option_map, string_bytes};
ghost use Rattle.arwen_cli_options.specs.Options.{given_model};
ghost use Rattle.arwen_cli_patchelf_lines.specs.Refusals.{absent_among, files_refused, is_absent as is_absent_here, is_asked as is_asked_for, line_refused, order_refused, refused_model};

use arwen_cli_options::Given;

/// Why a line isn't done.
#[derive(Clone, Copy)]
pub enum Refused {
    /// The option of this name isn't there.
    Absent(&'static str),
    /// No file is named.
    NoFile,
    /// One output is named, and not one file.
    SeveralFiles,
    /// The run path is to be set and to be added to.
    SetAndAdd,
}

/// Why a line is refused that gives this. Takes no memory.
pub fn line_refusal(given: &[Given<'_>], paths: &[String]) -> Option<Refused>
    ensures { option_map refused_model result
        ≡ line_refused (map given_model given.now) (map string_bytes paths.now) }
{
    if let Some(name) = absent_in(given) {
        return Some(Refused::Absent(name));
    }
    match files_refusal(paths, is_asked(given, "--output")) {
        Some(refused) => Some(refused),
        None => order_refusal(given),
    }
}

/// The first option that isn't there.
fn absent_in(given: &[Given<'_>]) -> Option<&'static str>
    ensures { option_map (λ name. name.now) result ≡ absent_among (map given_model given.now) }
{
    for one in given {
        if is_absent(one.name) {
            return Some(one.name);
        }
    }
    None
}

/// Whether an option isn't there.
fn is_absent(name: &str) -> bool
    ensures { result ≡ is_absent_here name.now }
{
    name == "--no-clobber-old-sections"
}

/// Whether an option of this name is given.
pub(crate) fn is_asked(given: &[Given<'_>], name: &str) -> bool
    ensures { result ≡ is_asked_for name.now (map given_model given.now) }
{
    for one in given {
        if one.name == name {
            return true;
        }
    }
    false
}

/// Why a line is refused that names these files, with an output or without.
fn files_refusal(paths: &[String], has_output: bool) -> Option<Refused>
    ensures { option_map refused_model result
        ≡ files_refused (map string_bytes paths.now) has_output }
{
    match paths {
        [] => Some(Refused::NoFile),
        [_] => None,
        _ if has_output => Some(Refused::SeveralFiles),
        _ => None,
    }
}

/// Why a line is refused whose options don't go with one another.
fn order_refusal(given: &[Given<'_>]) -> Option<Refused>
    ensures { option_map refused_model result ≡ order_refused (map given_model given.now) }
{
    if is_asked(given, "--set-rpath") && is_asked(given, "--add-rpath") {
        Some(Refused::SetAndAdd)
    } else {
        None
    }
}
