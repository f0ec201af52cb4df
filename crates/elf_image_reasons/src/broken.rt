ghost use Rattle.std.specs.Prelude.{◌≡◌, ◌≢◌, IfOk, IsTrue, None, is_some, not, option_and_then, option_map};
ghost use Rattle.std.specs.Result.{result_err};
ghost use Rattle.elf_format.specs.File.{opened_of};
ghost use Rattle.elf_format.specs.Rules.{fault_of};
ghost use Rattle.elf_format.specs.Stages.{parts_read};
ghost use Rattle.elf_image_reasons.specs.ReadTests.{IsToldFault, broken_rule as first_of_file, fault_of_rule, first_broken, header_tests, opening_tests, rule_numbered as numbered, rule_of_headers as of_headers, rule_of_parts as of_parts};

use crate::laws::rules_tell_faults;
use crate::rule::Rule;
use elf_format::fault::ElfFault;
use elf_format::laws::images_show;
use elf_format::opening::{form, has_magic};
use elf_image::Builder;
use elf_image_rules::headers::read_headers;
use std::alloc::{AllocError, Global};

// Whether a fault is that memory ran out.
pub(crate) fn is_memory(fault: ElfFault) -> bool
    ensures yes { IsTrue result → fault ≡ ElfFault.Memory }
    ensures no { IsTrue (not result) → fault ≢ ElfFault.Memory }
{
    match fault {
        ElfFault::Memory => true,
        _ => false,
    }
}

// Whether a file has its file header.
#[tactic(auto, unfolding(elf_format::specs::File::opened_of))]
fn has_header(bytes: &[u8]) -> bool
    ensures { result ≡ is_some (opened_of bytes.now) }
{
    match form(bytes) {
        None => false,
        Some(form) => form.file_header_size() <= bytes.len(),
    }
}

// The first rule that a file breaks of those on its first bytes and its file header.
#[tactic(auto, unfolding(crate::specs::ReadTests::first_broken))]
fn opening_rule(bytes: &[u8]) -> Option<Rule>
    ensures { result ≡ first_broken opening_tests bytes.now }
{
    if bytes.len() < 16 {
        return Some(Rule::Identification);
    }
    if !has_magic(bytes) {
        return Some(Rule::Magic);
    }
    if form(bytes).is_none() {
        return Some(Rule::Class);
    }
    if !has_header(bytes) {
        return Some(Rule::FileHeader);
    }
    None
}

// The rule on headers that a file broke where reading them answered a fault.
fn rule_of_headers(fault: Option<ElfFault>) -> Option<Rule>
    ensures { result ≡ option_and_then of_headers fault }
{
    match fault? {
        ElfFault::Unsupported => Some(Rule::FileKind),
        ElfFault::Truncated => Some(Rule::HeaderTables),
        _ => None,
    }
}

// A fault that was answered, unless it is that memory ran out.
fn told_fault(fault: Option<ElfFault>) -> Result<Option<ElfFault>, AllocError>
    ensures { IfOk result (λ answer. IsToldFault fault answer) }
{
    match fault {
        None => Ok(None),
        Some(fault) => {
            if is_memory(fault) {
                return Err(AllocError);
            }
            Ok(Some(fault))
        }
    }
}

// The fault that reading the headers of a file answers, or none where they are read.
fn fault_of_headers(alloc: Global, bytes: &[u8]) -> Result<Option<ElfFault>, AllocError>
    ensures { IfOk result (λ answer. answer ≡ result_err (parts_read bytes.now)) }
{
    told_fault(read_headers(alloc, bytes).err())
}

// The first rule that a file breaks of those on its kind and its header tables, where it has a file header.
fn header_rule(alloc: Global, bytes: &[u8]) -> Result<Option<Rule>, AllocError>
    requires { first_broken opening_tests bytes.now ≡ None }
    ensures { IfOk result (λ answer. answer ≡ first_broken header_tests bytes.now) }
{
    let fault = fault_of_headers(alloc, bytes)?;
    Ok(rule_of_headers(fault))
}

// The rule with a number.
fn rule_numbered(number: u8) -> Option<Rule>
    ensures { result ≡ numbered number }
{
    match number {
        2 => Some(Rule::FileParts),
        3 => Some(Rule::SegmentsApart),
        4 => Some(Rule::SectionsLoaded),
        5 => Some(Rule::UninitializedData),
        6 => Some(Rule::TableLinks),
        7 => Some(Rule::DynamicSection),
        8 => Some(Rule::Interpreter),
        9 => Some(Rule::DynamicTables),
        11 => Some(Rule::Versions),
        12 => Some(Rule::LoadedHeaderTable),
        _ => None,
    }
}

// The rule that a file broke whose header tables are there, where reading it answered a fault.
fn rule_of_parts(fault: Option<ElfFault>) -> Option<Rule>
    ensures { result ≡ option_and_then of_parts fault }
{
    match fault? {
        ElfFault::Truncated => Some(Rule::RangesInFile),
        ElfFault::BadText => Some(Rule::Texts),
        ElfFault::Disagree(number) => rule_numbered(number),
        _ => None,
    }
}

// The fault that reading a file answers, or none where it is accepted.
fn fault_of_file(alloc: Global, bytes: &[u8]) -> Result<Option<ElfFault>, AllocError>
    ensures { IfOk result (λ answer. answer ≡ fault_of bytes.now) }
{
    images_show();
    told_fault(Builder::read(alloc, bytes).err())
}

// The first rule that a file breaks whose header and header tables are right.
fn part_rule(alloc: Global, bytes: &[u8]) -> Result<Option<Rule>, AllocError>
    requires opening { first_broken opening_tests bytes.now ≡ None }
    requires header { first_broken header_tests bytes.now ≡ None }
    ensures { IfOk result (λ answer. answer ≡ first_of_file bytes.now) }
{
    let fault = fault_of_file(alloc, bytes)?;
    Ok(rule_of_parts(fault))
}

// The first rule that a file breaks whose first bytes and file header are right.
fn later_rule(alloc: Global, bytes: &[u8]) -> Result<Option<Rule>, AllocError>
    requires { first_broken opening_tests bytes.now ≡ None }
    ensures { IfOk result (λ answer. answer ≡ first_of_file bytes.now) }
{
    match header_rule(alloc, bytes)? {
        Some(rule) => Ok(Some(rule)),
        None => part_rule(alloc, bytes),
    }
}

// The first rule that a file breaks.
fn first_rule(alloc: Global, bytes: &[u8]) -> Result<Option<Rule>, AllocError>
    ensures { IfOk result (λ answer. answer ≡ first_of_file bytes.now) }
{
    match opening_rule(bytes) {
        Some(rule) => Ok(Some(rule)),
        None => later_rule(alloc, bytes),
    }
}

/// The first read rule that a file breaks, in the order in which a read looks; `None` just where the file is accepted.
/// Error: `AllocError`, only where a growth was refused.
pub fn broken_rule(alloc: Global, bytes: &[u8]) -> Result<Option<Rule>, AllocError>
    ensures rule { IfOk result (λ answer. answer ≡ first_of_file bytes.now) }
    ensures fault { IfOk result (λ answer.
        option_map fault_of_rule answer ≡ fault_of bytes.now) }
{
    rules_tell_faults();
    first_rule(alloc, bytes)
}
