ghost use Rattle.std.specs.Prelude.{◌≡◌, IfOk, Some};
ghost use Rattle.elf_format.specs.Rules.{raw_entries as entries_of};
ghost use Rattle.elf_image_rules.specs.Read.{parts_model};
ghost use Rattle.elf_image_reasons.specs.Details.{detail_of as detail_by, flawed as flawed_by, joint_detail as joint_by, late_detail as late_by, lone_detail as lone_by, part_detail as part_by, unloaded_detail as unloaded_by};
ghost use Rattle.elf_image_reasons.specs.Told.{reason_of};

use crate::broken::{broken_rule, is_memory};
use crate::dynamic::{dynamic_detail, interpreter_detail, text_detail};
use crate::headers::early_detail;
use crate::meetings::{shared_sections, shared_segments};
use crate::placed::{wrong_section, wrong_segment};
use crate::rule::Rule;
use crate::tables::tables_detail;
use elf_format::records::EntryNumbers;
use elf_image_flaws::detail::Detail;
use elf_image_flaws::flaws::{Flaw, first_there};
use elf_image_flaws::links::broken_links;
use elf_image_flaws::names::broken_texts;
use elf_image_flaws::versions::broken_versions;
use elf_image_rules::dynamic::raw_entries;
use elf_image_rules::headers::{Headers, read_headers};
use std::alloc::{AllocError, Global};
use std::fmt;

/// Why a file is refused.
#[derive(Clone, Copy)]
pub struct Reason {
    /// The first read rule that the file breaks.
    pub rule: Rule,
    /// What contradicts the rule, where it was looked for and found.
    pub detail: Option<Detail>,
}

impl fmt::Display for Reason {
    fn fmt<W: fmt::Write>(&self, f: &mut fmt::Formatter<W>) -> fmt::Result {
        let rule = self.rule;
        match self.detail {
            Some(detail) => write!(f, "{rule}: {detail}"),
            None => write!(f, "{rule}"),
        }
    }
}

// The program header table, which no loaded segment has.
fn unloaded_table(parts: &Headers<'_>) -> Detail
    ensures { Some result ≡ unloaded_by (parts_model parts.now) }
{
    Detail::Unloaded {
        offset: parts.header.e_phoff,
        size: parts.header.e_phnum as u64 * parts.form.segment_header_size() as u64,
    }
}

// The first section or program header that contradicts a rule by itself.
fn lone_detail(parts: &Headers<'_>, rule: Rule) -> Option<Detail>
    ensures { result ≡ lone_by rule (parts_model parts.now) }
{
    let length = parts.file.len();
    first_there(
        wrong_section(rule, length, &parts.segments, &parts.sections),
        wrong_segment(rule, length, &parts.segments),
    )
}

// A section with what of it contradicts a rule.
fn flawed(told: Option<(usize, Flaw)>) -> Option<Detail>
    ensures { result ≡ flawed_by told }
{
    let (section, flaw) = told?;
    Some(Detail::Flawed { section, flaw })
}

// What contradicts the rule on texts: a dynamic entry, or any other text.
fn texts_detail(
    alloc: Global,
    parts: &Headers<'_>,
    raw: &[EntryNumbers],
) -> Result<Option<Detail>, AllocError>
    requires { raw.now ≡ entries_of (parts_model parts.now) }
    ensures { IfOk result (λ answer. answer ≡ joint_by Rule.Texts (parts_model parts.now)) }
{
    let entry = text_detail(parts, raw);
    let other = broken_texts(alloc, parts, raw)?;
    Ok(first_there(entry, flawed(other)))
}

// What contradicts the rule on versions.
fn versions_detail(alloc: Global, parts: &Headers<'_>) -> Result<Option<Detail>, AllocError>
    ensures { IfOk result (λ answer. answer ≡ joint_by Rule.Versions (parts_model parts.now)) }
{
    let told = broken_versions(alloc, parts)?;
    Ok(flawed(told))
}

// What contradicts a rule besides.
fn joint_detail(
    alloc: Global,
    parts: &Headers<'_>,
    raw: &[EntryNumbers],
    rule: Rule,
) -> Result<Option<Detail>, AllocError>
    requires { raw.now ≡ entries_of (parts_model parts.now) }
    ensures { IfOk result (λ answer. answer ≡ joint_by rule (parts_model parts.now)) }
{
    match rule {
        Rule::SegmentsApart => shared_segments(alloc, &parts.segments),
        Rule::SectionsLoaded => shared_sections(alloc, &parts.sections),
        Rule::TableLinks => Ok(flawed(broken_links(parts))),
        Rule::DynamicSection => Ok(dynamic_detail(&parts.segments, &parts.sections)),
        Rule::Interpreter => Ok(interpreter_detail(&parts.segments)),
        Rule::DynamicTables => Ok(tables_detail(parts, raw)),
        Rule::Texts => texts_detail(alloc, parts, raw),
        Rule::Versions => versions_detail(alloc, parts),
        Rule::LoadedHeaderTable => Ok(Some(unloaded_table(parts))),
        _ => Ok(None),
    }
}

// What contradicts a rule on the parts of a file.
fn part_detail(alloc: Global, parts: &Headers<'_>, rule: Rule) -> Result<Option<Detail>, AllocError>
    ensures { IfOk result (λ answer. answer ≡ part_by rule (parts_model parts.now)) }
{
    let raw = raw_entries(alloc, parts)?;
    let joint = joint_detail(alloc, parts, &raw, rule)?;
    Ok(first_there(lone_detail(parts, rule), joint))
}

// What contradicts a rule on the parts of a file, where its headers are read.
fn late_detail(alloc: Global, bytes: &[u8], rule: Rule) -> Result<Option<Detail>, AllocError>
    ensures { IfOk result (λ answer. answer ≡ late_by rule bytes.now) }
{
    match read_headers(alloc, bytes) {
        Ok(parts) => part_detail(alloc, &parts, rule),
        Err(fault) => {
            if is_memory(fault) {
                return Err(AllocError);
            }
            Ok(None)
        }
    }
}

// What contradicts a rule that a file breaks, as far as it is looked for.
fn detail_of(alloc: Global, bytes: &[u8], rule: Rule) -> Result<Option<Detail>, AllocError>
    ensures { IfOk result (λ answer. answer ≡ detail_by rule bytes.now) }
{
    let late = late_detail(alloc, bytes, rule)?;
    Ok(first_there(early_detail(bytes, rule), late))
}

/// Why a file is refused: the first read rule that it breaks, in the order in which a read looks, with what contradicts it;
/// `None` just where the file is accepted. Error: `AllocError`, only where a growth was refused.
pub fn explain_refusal(alloc: Global, bytes: &[u8]) -> Result<Option<Reason>, AllocError>
    ensures { IfOk result (λ answer. answer ≡ reason_of bytes.now) }
{
    let Some(rule) = broken_rule(alloc, bytes)? else {
        return Ok(None);
    };
    let detail = detail_of(alloc, bytes, rule)?;
    Ok(Some(Reason { rule, detail }))
}
