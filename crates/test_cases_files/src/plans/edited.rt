//! The plan of a file after edits.
use crate::plans::lines::put_plan;
use crate::plans::steps::{put_fault, put_steps};
use crate::refused::{put_no_edits, put_refused};
use crate::words::edits_of;
use elf_commands::files::{ElfEdit, ElfError, Writer};
use elf_image::Builder;
use elf_layout::lay_out;
use std::alloc::{AllocError, Global};

/// What is put down of an edited file.
#[derive(Clone, Copy)]
pub(crate) enum Shown {
    /// The plan of the edited file.
    Plan,
    /// What each call on the way to a plan answers, and the plan.
    Steps,
}

/// Puts down what is asked for of a file after the edits that words are, if there are any.
pub(crate) fn show(
    alloc: Global,
    bytes: &[u8],
    shown: Shown,
    words: &str,
    out: &mut String,
) -> Result<(), AllocError> {
    match Writer::read(alloc, bytes) {
        Ok(mut file) => edit(alloc, &mut file, shown, words, out),
        Err(ElfError::Memory) => Err(AllocError),
        Err(fault) => writeln!(out, "{fault}"),
    }
}

/// Edits a file by words, and puts down what is asked for.
fn edit(
    alloc: Global,
    file: &mut Writer<'_>,
    shown: Shown,
    words: &str,
    out: &mut String,
) -> Result<(), AllocError> {
    if words.is_empty() {
        return put_image(alloc, file.builder(), shown, out);
    }
    match edits_of(alloc, words) {
        Ok(edits) => apply(alloc, file, edits.as_slice(), shown, out),
        Err(error) => put_no_edits(&error, out),
    }
}

/// Edits a file, and puts down what is asked for.
fn apply(
    alloc: Global,
    file: &mut Writer<'_>,
    edits: &[ElfEdit],
    shown: Shown,
    out: &mut String,
) -> Result<(), AllocError> {
    match file.apply(alloc, edits) {
        Ok(()) => put_image(alloc, file.builder(), shown, out),
        Err(batch) => put_refused(batch.index, &batch.fault, out),
    }
}

/// Puts down what is asked for of an image.
fn put_image(
    alloc: Global,
    image: &Builder<'_>,
    shown: Shown,
    out: &mut String,
) -> Result<(), AllocError> {
    match shown {
        Shown::Plan => show_plan(alloc, image, out),
        Shown::Steps => put_steps(alloc, image, out),
    }
}

/// Puts down the plan of an image, or why there is none.
fn show_plan(alloc: Global, image: &Builder<'_>, out: &mut String) -> Result<(), AllocError> {
    match lay_out(alloc, image) {
        Ok(plan) => put_plan(&plan, out),
        Err(fault) => put_fault(fault, out),
    }
}
