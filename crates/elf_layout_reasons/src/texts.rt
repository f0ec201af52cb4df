//! What is said of two blocks that overlap and never move.
ghost use Rattle.std.specs.Prelude.{◌≡◌, ◌++◌, IfOk, OnOk, codes, option_map, string_bytes};
ghost use Rattle.elf_layout_reasons.specs.Advice.{advice_for as advice_by, advice_part, advice_text as advice_told, block_text as block_told, overlap_text as overlap_told, pair_text as pair_told, part_text as part_told};

use crate::advice::{Advice, Part, advice_for, name_of, part_of};
use crate::stuck::StuckPair;
use elf_image::Builder;
use elf_layout_moves::blocks::MemoryBlock;
use std::alloc::{AllocError, Global};

/// What takes a block, in words: a section's name where it has one, shown lossily. Error: `AllocError`.
pub fn part_text(alloc: Global, image: &Builder<'_>, part: Part) -> Result<String, AllocError>
    ensures { IfOk result (λ text. string_bytes text ≡ part_told image.now part) }
{
    let name = name_of(image, part);
    if name.is_empty() {
        return format!(in alloc; "{part}");
    }
    String::from_utf8_lossy(alloc, name)
}

// What takes a block, in words.
fn block_text(alloc: Global, image: &Builder<'_>, block: MemoryBlock) -> Result<String, AllocError>
    ensures { IfOk result (λ text. string_bytes text ≡ block_told image.now block) }
{
    part_text(alloc, image, part_of(image, block))
}

/// What may be done, in words that name both blocks; `None` where nothing is known. Error: `AllocError`.
pub fn advice_text(
    alloc: Global,
    image: &Builder<'_>,
    pair: &StuckPair,
) -> Result<Option<String>, AllocError>
    ensures { IfOk result (λ text. option_map string_bytes text
        ≡ option_map (advice_told image.now pair.now) (advice_by image.now pair.now.earlier)) }
{
    match advice_for(image, pair) {
        None => Ok(None),
        Some(advice) => Ok(Some(text_with(alloc, image, pair, advice)?)),
    }
}

// What may be done, in words that name both blocks.
#[tactic(auto, unfolding(crate::specs::Advice::advice_text))]
fn text_with(
    alloc: Global,
    image: &Builder<'_>,
    pair: &StuckPair,
    advice: Advice,
) -> Result<String, AllocError>
    ensures { IfOk result (λ text.
        string_bytes text ≡ advice_told image.now pair.now advice) }
{
    let mut text = block_text(alloc, image, pair.earlier)?;
    text.push_str(" has ")?;
    text.push_str(advice.words())?;
    text.push_str(", ")?;
    put_block(alloc, &mut text, image, pair.later)?;
    text.push_str(" stands behind it")?;
    Ok(text)
}

// Puts what takes a block behind a text.
fn put_block(
    alloc: Global,
    text: &mut String,
    image: &Builder<'_>,
    block: MemoryBlock,
) -> Result<(), AllocError>
    ensures { OnOk result
        (string_bytes text.new ≡ string_bytes text.old ++ block_told image.now block) }
{
    let words = block_text(alloc, image, block)?;
    text.push_str(words.as_str())
}

/// That two blocks never move and overlap, and behind a semicolon what may be done, where something is known. Error:
/// `AllocError`.
pub fn pair_text(alloc: Global, image: &Builder<'_>, pair: &StuckPair) -> Result<String, AllocError>
    ensures { IfOk result (λ text. string_bytes text ≡ pair_told image.now pair.now) }
{
    let mut text = overlap_text(alloc, image, pair)?;
    let advice = advice_text(alloc, image, pair)?;
    put_advice(&mut text, &advice)?;
    Ok(text)
}

// That two blocks never move and overlap.
#[tactic(auto, unfolding(crate::specs::Advice::overlap_text))]
fn overlap_text(alloc: Global, image: &Builder<'_>, pair: &StuckPair) -> Result<String, AllocError>
    ensures { IfOk result (λ text. string_bytes text ≡ overlap_told image.now pair.now) }
{
    let mut text = block_text(alloc, image, pair.earlier)?;
    text.push_str(" and ")?;
    put_block(alloc, &mut text, image, pair.later)?;
    text.push_str(" never move and overlap")?;
    Ok(text)
}

// Puts what may be done behind a text, where something is known.
fn put_advice(text: &mut String, advice: &Option<String>) -> Result<(), AllocError>
    ensures { OnOk result (string_bytes text.new
        ≡ string_bytes text.old ++ advice_part (option_map string_bytes advice.now)) }
{
    match advice {
        None => Ok(()),
        Some(advice) => put_part(text, advice.as_str()),
    }
}

// Puts a text behind another and a semicolon.
fn put_part(text: &mut String, part: &str) -> Result<(), AllocError>
    ensures { OnOk result (string_bytes text.new
        ≡ string_bytes text.old ++ (codes "; " ++ part.now)) }
{
    text.push_str("; ")?;
    text.push_str(part)
}
