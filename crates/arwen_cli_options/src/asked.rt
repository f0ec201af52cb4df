//! What a line asks for, with texts of its own.
ghost use Rattle.std.specs.Prelude.{◌≡◌, IfOk, map, option_map, string_bytes};
ghost use Rattle.arwen_cli_options.specs.Asked.{asked_model, is_given as given_by_name, last_of as last_given, pair_lent, pairs_of as pairs_given};
ghost use Rattle.arwen_cli_options.specs.Options.{values_of as values_given};

use std::alloc::{AllocError, Global};

/// An option that a line gives, or a file.
#[derive(Drop)]
pub struct AskedOption {
    /// The option's name, or `FILE`.
    pub name: &'static str,
    /// Its first value, or the file's path; empty where it takes none.
    pub first: String,
    /// Its second value; empty where it takes none.
    pub second: String,
}

/// Whether an option of this name is given.
pub fn is_given(asked: &[AskedOption], name: &str) -> bool
    ensures { result ≡ given_by_name name.now (map asked_model asked.now) }
{
    for option in asked {
        if option.name == name {
            return true;
        }
    }
    false
}

/// The first values of the options of this name, in order, as bytes. Error: `AllocError`.
pub fn values_of(
    alloc: Global,
    asked: &[AskedOption],
    name: &str,
) -> Result<Vec<Vec<u8>>, AllocError>
    ensures { IfOk result (λ values. map (λ value. value.items) values.items
        ≡ values_given name.now (map asked_model asked.now)) }
{
    let mut values = Vec::new(alloc);
    for option in asked {
        if option.name == name {
            values.push(Vec::from_slice(alloc, option.first.as_bytes())?)?;
        }
    }
    Ok(values)
}

/// The value of the last option of this name. Error: `AllocError`.
pub fn last_of(
    alloc: Global,
    asked: &[AskedOption],
    name: &str,
) -> Result<Option<String>, AllocError>
    ensures { IfOk result (λ value. option_map string_bytes value
        ≡ last_given name.now (map asked_model asked.now)) }
{
    match last_option(asked, name) {
        Some(option) => Ok(Some(String::from_str(alloc, option.first.as_str())?)),
        None => Ok(None),
    }
}

/// The value of the last option of this name, as bytes. Error: `AllocError`.
pub fn last_bytes_of(
    alloc: Global,
    asked: &[AskedOption],
    name: &str,
) -> Result<Option<Vec<u8>>, AllocError>
    ensures { IfOk result (λ value. option_map (λ bytes. bytes.items) value
        ≡ last_given name.now (map asked_model asked.now)) }
{
    match last_option(asked, name) {
        Some(option) => Ok(Some(Vec::from_slice(alloc, option.first.as_bytes())?)),
        None => Ok(None),
    }
}

/// The last option of this name.
fn last_option<'o>(asked: &'o [AskedOption], name: &str) -> Option<&'o AskedOption>
    ensures { option_map (λ option. string_bytes option.now.first) result
        ≡ last_given name.now (map asked_model asked.entry.now) }
{
    let mut last = None;
    for option in asked {
        if option.name == name {
            last = Some(option);
        }
    }
    last
}

/// The pairs of values of the options of this name, in order, as bytes. Error: `AllocError`.
pub fn pairs_of(
    alloc: Global,
    asked: &[AskedOption],
    name: &str,
) -> Result<Vec<(Vec<u8>, Vec<u8>)>, AllocError>
    ensures { IfOk result (λ pairs. map pair_lent pairs.items
        ≡ pairs_given name.now (map asked_model asked.now)) }
{
    let mut pairs = Vec::new(alloc);
    for option in asked {
        if option.name == name {
            pairs.push(pair_of(alloc, option)?)?;
        }
    }
    Ok(pairs)
}

/// Both values of an option, as bytes.
fn pair_of(alloc: Global, option: &AskedOption) -> Result<(Vec<u8>, Vec<u8>), AllocError>
    ensures { IfOk result (λ pair. pair_lent pair
        ≡ (string_bytes option.now.first, string_bytes option.now.second)) }
{
    let first = Vec::from_slice(alloc, option.first.as_bytes())?;
    let second = Vec::from_slice(alloc, option.second.as_bytes())?;
    Ok((first, second))
}
