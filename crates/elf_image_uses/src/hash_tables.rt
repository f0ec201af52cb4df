//! Which hash tables can be made anew.
ghost use Rattle.std.specs.Prelude.{◌≡◌, ◌≤◌, ◌+◌, ◌*◌, ◌==◌, ◌&&◌, find, length, map, nat_le, not, option_map};
ghost use Rattle.std.specs.Int.{is_power_of_two};
ghost use Rattle.patch_bytes.specs.Number.{number_at, word_size};
ghost use Rattle.elf_format.specs.declared.constants.TheConstants.{SHT_GNU_HASH as GNU_HASH, SHT_HASH as HASH};
ghost use Rattle.elf_format.specs.Options.{is_none_or};
ghost use Rattle.elf_image.specs.ImageModel.{section_model};
ghost use Rattle.elf_image.specs.Kept.{kept_of_type};
ghost use Rattle.elf_image_uses.specs.Renumbering.{can_make_gabi as can_gabi_be_made, can_make_gnu as can_gnu_be_made, is_gabi_front};

use elf_format::constants::{SHT_GNU_HASH, SHT_HASH};
use elf_format::numbers::word_at;
use elf_image::{Builder, Form, Section};
use patch_bytes::Wide;

// The size of an entry of a hash table where that isn't 4 bytes, as in files for Alpha and S/390.
const LONG_ENTRY: u64 = 8;

// The number of four bytes at a position.
fn word(form: Form, content: &[u8], position: usize) -> u32
    ensures { result ≡ number_at form.order 4 position content.now }
{
    word_at(form, content, position)
}

// Whether there is a bucket, and so many bytes hold the two numbers, the buckets and the chains (gABI, Hash Table).
fn is_front_whole(size: usize, buckets: u32, chains: u32) -> bool
    ensures { result ≡ is_gabi_front size buckets chains }
{
    buckets != 0 && 4 * (2 + buckets as u64 + chains as u64) <= size as u64
}

// Whether a gABI hash table can be made anew: its entries have 4 bytes, and its front is whole.
fn can_make_gabi(form: Form, section: &Section<'_>) -> bool
    ensures { result ≡ can_gabi_be_made form (section_model section.now) }
{
    let content = section.content;
    if section.sh_entsize == LONG_ENTRY {
        return false;
    }
    if content.len() < 8 {
        return false;
    }
    let buckets = word(form, content, 0);
    let chains = word(form, content, 4);
    is_front_whole(content.len(), buckets, chains)
}

// How many bytes a word of the filter has (GNU hash section).
fn word_bytes(wide: Wide) -> u64
    ensures value { result ≡ word_size wide }
    ensures small { result ≤ 8 }
{
    match wide {
        Wide::W32 => 4,
        Wide::W64 => 8,
    }
}

// Whether so many bytes hold the four numbers, the filter and the buckets (GNU hash section).
fn has_room(form: Form, size: usize, buckets: u32, filter_words: u32) -> bool
    ensures { result ≡ nat_le (16 + filter_words * word_size form.wide + 4 * buckets) size }
{
    16 + filter_words as u64 * word_bytes(form.wide) + 4 * buckets as u64 <= size as u64
}

// Whether there is a bucket, the words of the filter are a power of two, and the shift leaves a bit of a hash.
fn are_sizes_right(buckets: u32, filter_words: u32, filter_shift: u32) -> bool
    ensures { result
        ≡ (not (buckets == 0) && is_power_of_two filter_words && nat_le filter_shift 31) }
{
    buckets != 0 && filter_words.is_power_of_two() && filter_shift <= 31
}

// Whether the front of a GNU table has right sizes, and the section has room for what they tell.
fn is_gnu_front_whole(
    form: Form,
    size: usize,
    buckets: u32,
    filter_words: u32,
    filter_shift: u32,
) -> bool
    ensures { result ≡ (not (buckets == 0) && is_power_of_two filter_words
        && nat_le filter_shift 31
        && nat_le (16 + filter_words * word_size form.wide + 4 * buckets) size) }
{
    are_sizes_right(buckets, filter_words, filter_shift)
        && has_room(form, size, buckets, filter_words)
}

// Whether a GNU hash table can be made anew.
fn can_make_gnu(form: Form, section: &Section<'_>) -> bool
    ensures { result ≡ can_gnu_be_made form (section_model section.now) }
{
    let content = section.content;
    if content.len() < 16 {
        return false;
    }
    let buckets = word(form, content, 0);
    let filter_words = word(form, content, 8);
    let filter_shift = word(form, content, 12);
    is_gnu_front_whole(form, content.len(), buckets, filter_words, filter_shift)
}

// The first section of a type.
fn first_of_type<'a, 'data>(sections: &'a [Section<'data>], kind: u32) -> Option<&'a Section<'data>>
    ensures { option_map (λ s. section_model s.now) result
        ≡ find (λ s. s.sh_type == kind) (map section_model sections.now) }
{
    sections.iter().find(|section| section.sh_type == kind)
}

// Whether the gABI's hash table, where there is one, can be made anew.
fn can_make_hash(image: &Builder<'_>) -> bool
    ensures { result ≡ is_none_or (λ s. can_gabi_be_made image.now.form s.section)
        (kept_of_type HASH image.now) }
{
    // the image has as many numbers of sections as sections
    let _source = image.source();
    match first_of_type(image.sections(), SHT_HASH) {
        None => true,
        Some(section) => can_make_gabi(image.form(), section),
    }
}

// Whether the GNU hash table, where there is one, can be made anew.
fn can_make_gnu_hash(image: &Builder<'_>) -> bool
    ensures { result ≡ is_none_or (λ s. can_gnu_be_made image.now.form s.section)
        (kept_of_type GNU_HASH image.now) }
{
    // the image has as many numbers of sections as sections
    let _source = image.source();
    match first_of_type(image.sections(), SHT_GNU_HASH) {
        None => true,
        Some(section) => can_make_gnu(image.form(), section),
    }
}

// Whether each hash table that is there can be made anew.
pub(crate) fn can_make_tables(image: &Builder<'_>) -> bool
    ensures { result ≡ (is_none_or (λ s. can_gabi_be_made image.now.form s.section)
        (kept_of_type HASH image.now)
        && is_none_or (λ s. can_gnu_be_made image.now.form s.section)
        (kept_of_type GNU_HASH image.now)) }
{
    can_make_hash(image) && can_make_gnu_hash(image)
}
