//! The lists that an image shows, a line for each item.
ghost use Rattle.std.specs.Prelude.{◌<◌, length};
ghost use Rattle.elf_image_symbols.specs.Loan.{symbols_now};

use elf_image::{Dynamic, Segment, Symbol, SymbolsNow, VersionDef, VersionNeed, VersionNeedName};
use std::io;
use test_cases_written::rows::Text;

/// The numbers of a program header.
fn numbers(segment: &Segment<'_>) -> [u64; 8] {
    [
        segment.p_type() as u64,
        segment.p_flags() as u64,
        segment.p_offset(),
        segment.p_vaddr(),
        segment.p_paddr(),
        segment.p_filesz(),
        segment.p_memsz(),
        segment.p_align(),
    ]
}

pub(crate) fn print_segments(rt: &HostRuntime, segments: &[Segment<'_>]) -> io::Result<()> {
    for segment in segments {
        println!(rt; "segment {:?}", numbers(segment))?;
    }
    Ok(())
}

/// Prints a symbol: its name, its numbers and its version.
pub(crate) fn print_symbol(rt: &HostRuntime, what: &str, symbol: &Symbol<'_>) -> io::Result<()> {
    let numbers = [
        symbol.st_info as u64,
        symbol.st_other as u64,
        symbol.st_shndx as u64,
        symbol.st_value,
        symbol.st_size,
    ];
    println!(rt;
        "{what} {} {numbers:?} {:?}",
        Text(symbol.name),
        symbol.version
    )
}

/// Prints symbols, and says so where a part of one that is asked for alone is another.
pub(crate) fn print_symbols(
    rt: &HostRuntime,
    what: &str,
    symbols: SymbolsNow<'_>,
) -> io::Result<()> {
    for i in 0..symbols.len() {
        print_symbol(rt, what, &symbols.get(i))?;
        if !are_parts_same(symbols, i) {
            println!(rt; "has other parts")?;
        }
    }
    Ok(())
}

/// Whether the parts of a symbol that can be asked for alone are those of the symbol.
fn are_parts_same(symbols: SymbolsNow<'_>, i: usize) -> bool
    requires { i < length (symbols_now symbols) }
{
    let (symbol, numbers) = (symbols.get(i), symbols.numbers(i, 9));
    symbols.name(i) == symbol.name
        && symbols.has_name(i) == !symbol.name.is_empty()
        && numbers.st_name == 9
        && numbers.st_info == symbol.st_info
        && numbers.st_other == symbol.st_other
        && numbers.st_shndx == symbol.st_shndx
        && numbers.st_value == symbol.st_value
        && numbers.st_size == symbol.st_size
}

pub(crate) fn print_definitions(
    rt: &HostRuntime,
    definitions: &[VersionDef<'_>],
) -> io::Result<()> {
    for definition in definitions {
        print_definition(rt, definition)?;
    }
    Ok(())
}

/// Prints the names of a version behind its index and its flags.
fn print_definition(rt: &HostRuntime, definition: &VersionDef<'_>) -> io::Result<()> {
    print!(rt; "defines {} {}", definition.index, definition.flags)?;
    for name in &definition.names {
        print!(rt; " {}", Text(name.as_slice()))?;
    }
    println!(rt;)
}

pub(crate) fn print_needs(rt: &HostRuntime, needs: &[VersionNeed<'_>]) -> io::Result<()> {
    for need in needs {
        print_need(rt, need)?;
    }
    Ok(())
}

/// Prints a library, and the versions that are needed of it.
fn print_need(rt: &HostRuntime, need: &VersionNeed<'_>) -> io::Result<()> {
    print!(rt; "needs {}", Text(need.file.as_slice()))?;
    for version in &need.versions {
        print_version(rt, version)?;
    }
    println!(rt;)
}

fn print_version(rt: &HostRuntime, version: &VersionNeedName<'_>) -> io::Result<()> {
    let (index, flags) = (version.index, version.flags);
    print!(rt; ", {index} {flags} {}", Text(version.name.as_slice()))
}

/// Prints a dynamic list, or that there is none.
pub(crate) fn print_entries(rt: &HostRuntime, list: Option<&[Dynamic<'_>]>) -> io::Result<()> {
    let Some(list) = list else {
        return println!(rt; "no list");
    };
    for entry in list {
        print_entry(rt, entry)?;
    }
    Ok(())
}

fn print_entry(rt: &HostRuntime, entry: &Dynamic<'_>) -> io::Result<()> {
    match entry {
        Dynamic::Auto { tag } => println!(rt; "entry {tag}"),
        Dynamic::Integer { tag, val } => println!(rt; "entry {tag} = {val}"),
        Dynamic::Text { tag, val } => println!(rt; "entry {tag} {}", Text(val.as_slice())),
    }
}
