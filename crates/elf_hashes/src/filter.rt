//! The filter of a GNU hash table.
ghost use Rattle.std.specs.Prelude.{◌≡◌, ◌+◌, ◌<◌, ◌++◌, All, length, map, replicate, IfOk, IsTrue, OnOk};
ghost use Rattle.elf_format.specs.Hashes.{filter_bits as filter_bits_in};
ghost use Rattle.elf_tables.specs.Fields.{does_field_fit, field_model, fields};
ghost use Rattle.elf_tables.specs.Spelled.{class_word};
ghost use Rattle.elf_hashes.specs.Gnu.{bits_of as bits_of_hash, filter_words_of};
ghost use Rattle.elf_hashes.specs.Steps.{AreBitsSet};

use crate::gnu::GnuSizes;
use elf_format::form::Form;
use elf_tables::{Field, push_fields};
use patch_bytes::Wide;
use std::alloc::{AllocError, Global};

// How many bits a word of the filter has.
fn filter_bits(form: Form) -> u32
    ensures { result ≡ filter_bits_in form }
{
    match form.wide {
        Wide::W32 => 32,
        Wide::W64 => 64,
    }
}

// The two bits that a hash names.
fn bits_of(form: Form, shift: u32, hash: u32) -> u64
    requires { shift < 32 }
    ensures { result ≡ bits_of_hash form shift hash }
{
    let bits = filter_bits(form);
    let first = 1u64 << (hash % bits);
    let second = 1u64 << ((hash >> shift) % bits);
    first | second
}

// Sets the bits of a symbol's hash, where those of the symbols behind it are set.
fn set_bits_of(words: &mut [u64], form: Form, sizes: GnuSizes, hashes: &[Option<u32>], i: usize)
    requires many { length words.old ≡ sizes.filter_words }
    requires some { 0 < sizes.filter_words }
    requires shift { sizes.filter_shift < 32 }
    requires inside { i < length hashes.now }
    requires behind { AreBitsSet form sizes (i + 1) hashes.now words.old }
    ensures { AreBitsSet form sizes i hashes.now words.new }
{
    match hashes[i] {
        Some(hash) => {
            let k = (hash / filter_bits(form)) as usize % words.len();
            words[k] |= bits_of(form, sizes.filter_shift, hash);
        }
        None => {}
    }
}

// Sets the bits of all hashes. None is set before.
fn set_bits(words: &mut [u64], form: Form, sizes: GnuSizes, hashes: &[Option<u32>])
    requires many { length words.old ≡ sizes.filter_words }
    requires some { 0 < sizes.filter_words }
    requires shift { sizes.filter_shift < 32 }
    requires none { words.old ≡ replicate (length words.old) 0 }
    ensures { words.new ≡ filter_words_of form sizes hashes.now }
{
    let mut i = hashes.len();
    while i > 0 {
        i -= 1;
        set_bits_of(words, form, sizes, hashes, i);
    }
}

// The words of the filter.
fn filter_words(
    alloc: Global,
    form: Form,
    sizes: GnuSizes,
    hashes: &[Option<u32>],
) -> Result<Vec<u64>, AllocError>
    requires some { 0 < sizes.filter_words }
    requires shift { sizes.filter_shift < 32 }
    ensures { IfOk result (λ words. words.items ≡ filter_words_of form sizes hashes.now) }
{
    let mut words = vec![in alloc; 0; sizes.filter_words as usize]?;
    set_bits(words.as_mut_slice(), form, sizes, hashes);
    Ok(words)
}

// A word of the class.
fn class_field(form: Form, number: u64) -> Field
    requires { IsTrue (does_field_fit (class_word form number)) }
    ensures { field_model result ≡ class_word form number }
{
    match form.wide {
        Wide::W32 => Field::Word(number as u32),
        Wide::W64 => Field::Long(number),
    }
}

// Appends words of the class.
fn push_class_words(bytes: &mut Vec<u8>, form: Form, numbers: &[u64]) -> Result<(), AllocError>
    requires { All (λ number. IsTrue (does_field_fit (class_word form number))) numbers.now }
    ensures { OnOk result (bytes.new.items
        ≡ bytes.old.items ++ fields form.order (map (class_word form) numbers.now)) }
{
    for number in numbers {
        push_fields(bytes, form.order, &[class_field(form, *number)])?;
    }
    Ok(())
}

// Appends the filter of these hashes.
pub(crate) fn push_filter(
    alloc: Global,
    bytes: &mut Vec<u8>,
    form: Form,
    sizes: GnuSizes,
    hashes: &[Option<u32>],
) -> Result<(), AllocError>
    requires some { 0 < sizes.filter_words }
    requires shift { sizes.filter_shift < 32 }
    ensures { OnOk result (bytes.new.items ≡ bytes.old.items
        ++ fields form.order (map (class_word form) (filter_words_of form sizes hashes.now))) }
{
    let words = filter_words(alloc, form, sizes, hashes)?;
    push_class_words(bytes, form, words.as_slice())
}
