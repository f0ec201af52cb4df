//! Runs files of lines, and prints what comes of each line.
//!
//! The file `cases` names them in order. What a line does is said by the folder that its file lies in: `line` and `show` in
//! the modules of these names, `plans` and `layouts` in those of `test_cases_files`, `edits` in `test_cases_edits`, `images`
//! in `test_cases_images`. Printed is a heading with each file's name, and below it what comes of its lines.
#![tactic(auto)]

mod line;
mod show;

use std::io;
use test_cases_files::{layouts, plans, read_file, text_of};

fn main(rt: HostRuntime) -> io::Result<()> {
    let names = read_file(&rt, "cases")?;
    for name in text_of(names.as_slice()).lines() {
        println!(rt; "==== {name}")?;
        run(&rt, name)?;
    }
    Ok(())
}

/// Runs the lines of a file.
fn run(rt: &HostRuntime, name: &str) -> io::Result<()> {
    let bytes = read_file(rt, name)?;
    let lines = text_of(bytes.as_slice());
    match name.split_once('/').unwrap_or((name, "")).0 {
        "line" => line::run(rt, lines),
        "show" => show::run(rt, lines),
        "edits" => test_cases_edits::run(rt, lines),
        "plans" => plans::run(rt, lines),
        "layouts" => layouts::run(rt, lines),
        "images" => test_cases_images::run(rt, lines),
        _ => println!(rt; "no lines of this kind"),
    }
}
