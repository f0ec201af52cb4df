use crate::records::NeedNameNumbers;
use std::marker::Model;

/// A defined version, its names by where they stand.
#[derive(Drop)]
pub struct RawDefinition {
    /// The index by which symbols name the version.
    pub index: u16,
    /// The version's flags.
    pub flags: u16,
    /// The offsets of the version's names.
    pub names: Vec<u32>,
}

impl Model for RawDefinition {
    ghost use Rattle.elf_format.specs.Versions.{DefinitionNumbers};

    ghost Value = { DefinitionNumbers };

    ghost view = { λ d. record { index = d.index; flags = d.flags; names = d.names.items } };
}

/// The versions needed of one library, its name by where it stands.
#[derive(Drop)]
pub struct RawNeeds {
    /// The offset of the library's name.
    pub file: u32,
    /// The versions, in the order of their chain.
    pub versions: Vec<NeedNameNumbers>,
}

impl Model for RawNeeds {
    ghost use Rattle.elf_format.specs.Versions.{NeedNumbers};

    ghost Value = { NeedNumbers };

    ghost view = { λ n. record { file = n.file; versions = n.versions.items } };
}
