//! Whose line the program's name and words are.
ghost use Rattle.std.specs.Prelude.{◌≡◌, map, option_map};
ghost use Rattle.arwen_cli_tools.specs.Peers.{helped, line_shown, named_by, peer_told, worded_by};

use std::path::Path;

/// A tool whose lines are run here.
#[derive(Clone, Copy)]
pub enum Peer {
    /// `patchelf`.
    Patchelf,
    /// `install_name_tool`.
    InstallNameTool,
}

/// Whose line it is, with the words behind that tool's name: the program was called by this name, and the words stand behind
/// it. A name whose last part is a tool's decides, or else the first word. `None` where neither names one. Takes no memory.
pub fn peer_of<'w, 'a>(name: &str, words: &'w [&'a str]) -> Option<(Peer, &'w [&'a str])>
    ensures { option_map line_shown result ≡ peer_told name.now (map (λ w. w.now) words.entry.now) }
{
    match peer_named(name) {
        Some(peer) => Some((peer, words)),
        None => peer_worded(words),
    }
}

/// The tool whose help these words ask for: `help`, and behind it the tool's name. `None` where they don't. Takes no memory.
pub fn helped_peer(words: &[&str]) -> Option<Peer>
    ensures { result ≡ helped (map (λ w. w.now) words.now) }
{
    let (first, behind) = words.split_first()?;
    match *first {
        "help" => Some(peer_worded(behind)?.0),
        _ => None,
    }
}

/// The tool that has the last part of a path as its name.
fn peer_named(name: &str) -> Option<Peer>
    ensures { result ≡ named_by name.now }
{
    let part = Path::new(name).file_name()?;
    match part {
        "patchelf" => Some(Peer::Patchelf),
        "install_name_tool" => Some(Peer::InstallNameTool),
        _ => None,
    }
}

/// The tool that the first of these words names, with the words behind it.
fn peer_worded<'w, 'a>(words: &'w [&'a str]) -> Option<(Peer, &'w [&'a str])>
    ensures { option_map line_shown result ≡ worded_by (map (λ w. w.now) words.entry.now) }
{
    let (first, behind) = words.split_first()?;
    match *first {
        "patchelf" => Some((Peer::Patchelf, behind)),
        "install-name-tool" => Some((Peer::InstallNameTool, behind)),
        _ => None,
    }
}
