ghost use Rattle.std.specs.Prelude.{◌≡◌, ◌∷◌, ◌++◌, ◌==◌, [], Some, false, Ok, IfErr, IfOk, OnOk, MatchResult, map, option_map, string_bytes};
ghost use Rattle.std.specs.Fmt.{decimal};
ghost use Rattle.std.specs.List.{flat_map, slice_split};
ghost use Rattle.std.specs.Io.KnownBytes.{Appends};
ghost use Rattle.elf_image.specs.Image.{image_of, shown};
ghost use Rattle.elf_image.specs.Answers.{borrowed};
ghost use Rattle.arwen_elf_writer.specs.Causes.{RefusesRead};
ghost use Rattle.arwen_elf_writer.specs.PageSizes.{page_size_for};
ghost use Rattle.arwen_elf.specs.Prints.{FailsPrint, FailsWrite, before_nul as bytes_before_nul, cut_at_colons as parts_between_colons, directories_shown, line_if, line_of, lossily, printed_exec_stack, printed_interpreter, printed_needed, printed_os_abi, printed_runpath, printed_soname, stack_line};
ghost use Rattle.arwen_elf_writer.specs.WriterModel.{ShowsBothViews, needed_left};
ghost use Rattle.arwen_elf_writer.specs.NewFile.{HoldsImage, IsNotStored};
ghost use Rattle.arwen_elf_writer.specs.Written.{AnswersBytes, AnswersPieces, AnswersWrite, IsIo, MayNotWrite};

use crate::elf::rewriter::new_file::NotWritten;
use crate::elf::rewriter::writer::{Needed, Writer};
use crate::writing::write_whole;
use arwen_elf_writer::CountedWrite;
use arwen_elf_writer::error::{ElfError, Result};
use bstr::ByteSlice;
use byte_store::{Creates, Difference};
use elf_image::constants::PF_X;
use std::alloc::{AllocError, Global};
use std::io::Write;
use std::rt::Files;

/// An ELF file as the program works with it: its image, and its bytes as read.
#[derive(Debug, Drop)]
pub struct ElfContainer<'a> {
    /// The image.
    pub inner: Writer<'a>,
    bytes: &'a [u8],
}

// Puts a text as it is printed behind others: lossily, with a line feed.
fn put_line(lines: &mut String, text: &[u8]) -> std::result::Result<(), AllocError>
    ensures { OnOk result (string_bytes lines.new ≡ string_bytes lines.old ++ line_of text.now) }
{
    text.to_str_lossy_into(lines)?;
    lines.push('\n')
}

// The line of a text.
fn line(alloc: Global, text: &[u8]) -> std::result::Result<String, AllocError>
    ensures { IfOk result (λ made. string_bytes made ≡ line_of text.now) }
{
    let mut made = String::new(alloc);
    put_line(&mut made, text)?;
    Ok(made)
}

// The lines of the texts that are left.
fn lines_of(alloc: Global, texts: Needed<'_>) -> std::result::Result<String, AllocError>
    ensures { IfOk result (λ lines.
        string_bytes lines ≡ flat_map line_of (needed_left texts.entry)) }
{
    let mut lines = String::new(alloc);
    for text in texts {
        put_line(&mut lines, text)?;
    }
    Ok(lines)
}

// Writes a text.
fn write_text<W: Write>(out: &mut W, text: String) -> Result<()>
    ensures prints { OnOk result (Appends (W.contents out.old) (W.contents out.new)
        (string_bytes text)) }
    ensures fails { IfErr result (FailsWrite W.contents (string_bytes text) out.old out.new) }
{
    let answer = write_whole(text.as_bytes(), out);
    drop(text);
    Ok(answer?)
}

// Writes a text's line.
fn write_line<W: Write>(alloc: Global, out: &mut W, text: &[u8]) -> Result<()>
    ensures prints { OnOk result (Appends (W.contents out.old) (W.contents out.new)
        (line_of text.now)) }
    ensures fails { IfErr result (FailsPrint W.contents (line_of text.now) out.old out.new) }
{
    write_text(out, line(alloc, text)?)
}

// Writes a text's line, or nothing where there is no text.
fn write_line_if<W: Write>(alloc: Global, out: &mut W, text: Option<&[u8]>) -> Result<()>
    ensures prints { OnOk result (Appends (W.contents out.old) (W.contents out.new)
        (line_if (option_map borrowed text.entry))) }
    ensures fails { IfErr result (FailsPrint W.contents (line_if (option_map borrowed text.entry))
        out.old out.new) }
{
    match text {
        None => Ok(()),
        Some(text) => write_line(alloc, out, text),
    }
}

// What is printed of the stack's flags.
fn stack_text(flags: u32) -> &'static [u8]
    ensures { result.now ≡ stack_line (Some flags) }
{
    if flags & PF_X == 0 { b"-\n" } else { b"X\n" }
}

// A number's line.
fn number_line(alloc: Global, number: u8) -> std::result::Result<String, AllocError>
    ensures { IfOk result (λ made. string_bytes made ≡ decimal number ++ 10 ∷ []) }
{
    let mut made = number.to_string(alloc)?;
    made.push('\n')?;
    Ok(made)
}

/// The bytes before the first NUL, all where there is none. Takes no memory.
pub fn before_nul(bytes: &[u8]) -> &[u8]
    ensures { result.now ≡ bytes_before_nul bytes.now }
{
    for (i, byte) in bytes.iter().enumerate() {
        if *byte == 0 {
            return &bytes[..i];
        }
    }
    bytes
}

// A text cut at its colons; the empty text has no parts.
fn cut_at_colons(alloc: Global, text: &str) -> std::result::Result<Vec<String>, AllocError>
    ensures { IfOk result (λ parts. map string_bytes parts.items ≡ parts_between_colons text.now) }
{
    if text.is_empty() {
        return Ok(Vec::new(alloc));
    }
    parts_of(alloc, text)
}

// The parts of a text between its colons.
fn parts_of(alloc: Global, text: &str) -> std::result::Result<Vec<String>, AllocError>
    ensures { IfOk result (λ parts.
        map string_bytes parts.items ≡ slice_split (λ b. b == 58) text.now) }
{
    let mut parts = Vec::new(alloc);
    for part in text.split(':') {
        parts.push(String::from_str(alloc, part)?)?;
    }
    Ok(parts)
}

// The directories of a run path.
fn directories_in(alloc: Global, text: &[u8]) -> std::result::Result<Vec<String>, AllocError>
    ensures { IfOk result (λ parts.
        map string_bytes parts.items ≡ parts_between_colons (lossily text.now)) }
{
    let shown = text.to_str_lossy(alloc)?;
    cut_at_colons(alloc, &shown)
}

impl<'a> ElfContainer<'a> {
    /// Reads a file: its image where every read rule holds. An image shows what the section headers show, and what
    /// a loader sees by the program headers alone (gABI, Sections and Program Header). Errors: `Parse` with the fault
    /// of the first rule that doesn't hold, `Memory`.
    pub fn parse(alloc: Global, bytes_of_file: &'a [u8]) -> Result<ElfContainer<'a>>
        ensures reads { MatchResult result
            (λ c. (image_of bytes_of_file.entry.now ≡ Ok c.inner)
            × (c.bytes.now ≡ bytes_of_file.entry.now))
            (λ e. RefusesRead e (image_of bytes_of_file.entry.now)) }
        ensures shows { IfOk result (λ c. ShowsBothViews bytes_of_file.entry.now c.inner) }
    {
        let inner = Writer::read(alloc, bytes_of_file)?;
        Ok(ElfContainer {
            inner,
            bytes: bytes_of_file,
        })
    }

    /// The file's bytes as read. Takes no memory.
    pub fn bytes(&self) -> &'a [u8]
        ensures { result.now ≡ self.now.bytes.now }
    {
        self.bytes
    }

    /// The page size that was set, else the default one of the file's machine (gABI, ELF Header, `e_machine`), in
    /// bytes. Takes no memory.
    pub fn get_page_size(&self) -> u32
        ensures { result ≡ page_size_for self.now.inner }
    {
        self.inner.elf_get_page_size()
    }

    /// The directories of the run path that a loader goes by: the text of the first DT_RUNPATH entry, else that of
    /// the first DT_RPATH entry (gABI, Dynamic Section), lossily, cut at its colons. There are none without such an
    /// entry and in the empty text; `/a::/b` is `/a`, the empty text and `/b`. Error: `Memory`.
    pub fn get_rpath(&self, alloc: Global) -> Result<Vec<String>>
        ensures { MatchResult result
            (λ directories. map string_bytes directories.items
            ≡ directories_shown (shown self.now.inner))
            (λ e. e ≡ ElfError.Memory) }
    {
        match self.inner.searched_runpath() {
            None => Ok(Vec::new(alloc)),
            Some(text) => Ok(directories_in(alloc, text)?),
        }
    }

    /// Prints the text of the first DT_RPATH or DT_RUNPATH entry (gABI, Dynamic Section): with U+FFFD for what is no
    /// character, and a line feed; nothing without such an entry. Errors: `Memory`, before anything was printed; `Io`.
    pub fn print_runpath<W: Write>(&self, alloc: Global, out: &mut W) -> Result<()>
        ensures prints { OnOk result (Appends (W.contents out.old) (W.contents out.new)
            (printed_runpath (shown self.now.inner))) }
        ensures fails { IfErr result (FailsPrint W.contents (printed_runpath (shown self.now.inner))
            out.old out.new) }
    {
        write_line_if(alloc, out, self.inner.elf_runpath())
    }

    /// Prints the text of the first DT_SONAME entry (gABI, Dynamic Section), the library's own name, in the same way.
    /// Errors: `Memory`, before anything was printed; `Io`.
    pub fn print_soname<W: Write>(&self, alloc: Global, out: &mut W) -> Result<()>
        ensures prints { OnOk result (Appends (W.contents out.old) (W.contents out.new)
            (printed_soname (shown self.now.inner))) }
        ensures fails { IfErr result (FailsPrint W.contents (printed_soname (shown self.now.inner))
            out.old out.new) }
    {
        write_line_if(alloc, out, self.inner.elf_soname())
    }

    /// Prints the text of each DT_NEEDED entry (gABI, Dynamic Section) in the same way, in order. Errors: `Memory`,
    /// before anything was printed; `Io`.
    pub fn print_needed<W: Write>(&self, alloc: Global, out: &mut W) -> Result<()>
        ensures prints { OnOk result (Appends (W.contents out.old) (W.contents out.new)
            (printed_needed (shown self.now.inner))) }
        ensures fails { IfErr result (FailsPrint W.contents (printed_needed (shown self.now.inner))
            out.old out.new) }
    {
        write_text(out, lines_of(alloc, self.inner.elf_needed())?)
    }

    /// Prints the bytes of the interpreter's section before the first NUL (gABI, Program Interpreter) in the same way.
    /// Errors: `Memory`, before anything was printed; `Io`.
    pub fn print_interpreter<W: Write>(&self, alloc: Global, out: &mut W) -> Result<()>
        ensures prints { OnOk result (Appends (W.contents out.old) (W.contents out.new)
            (printed_interpreter (shown self.now.inner))) }
        ensures fails { IfErr result (FailsPrint W.contents
            (printed_interpreter (shown self.now.inner)) out.old out.new) }
    {
        match self.inner.elf_interpreter() {
            None => Ok(()),
            Some(bytes) => write_line(alloc, out, before_nul(bytes)),
        }
    }

    /// Prints the ABI byte (gABI, ELF Identification, `EI_OSABI`) in decimal, with a line feed. Errors: `Memory`,
    /// before anything was printed; `Io`.
    pub fn print_os_abi<W: Write>(&self, alloc: Global, out: &mut W) -> Result<()>
        ensures prints { OnOk result (Appends (W.contents out.old) (W.contents out.new)
            (printed_os_abi (shown self.now.inner))) }
        ensures fails { IfErr result (FailsPrint W.contents (printed_os_abi (shown self.now.inner))
            out.old out.new) }
    {
        let text = number_line(alloc, self.inner.header().os_abi)?;
        write_text(out, text)
    }

    /// Prints `X` where the flags of the first PT_GNU_STACK (GNU extension) let the stack be run (`PF_X`), else `-`,
    /// with a line feed; nothing without a PT_GNU_STACK. Takes no memory. Error: `Io`.
    pub fn print_exec_stack<W: Write>(&self, out: &mut W) -> Result<()>
        ensures prints { OnOk result (Appends (W.contents out.old) (W.contents out.new)
            (printed_exec_stack (shown self.now.inner))) }
        ensures fails { IfErr result (FailsWrite W.contents
            (printed_exec_stack (shown self.now.inner)) out.old out.new) }
    {
        match self.inner.elf_gnu_exec_stack() {
            None => Ok(()),
            Some(flags) => Ok(write_whole(stack_text(flags), out)?),
        }
    }

    /// The bytes of the file that is written, as `Writer::image_bytes` gives them.
    pub fn image_bytes(&self, alloc: Global) -> Result<Vec<u8>>
        ensures { AnswersBytes self.now.inner result }
    {
        self.inner.image_bytes(alloc)
    }

    /// What of the bytes of the file that is written differs from those as read, as `Writer::image_pieces` gives it.
    pub fn image_pieces(&self, alloc: Global) -> Result<Difference>
        ensures { AnswersPieces self.now.inner result }
    {
        self.inner.image_pieces(alloc)
    }

    /// Writes the bytes of `image_bytes`, as `Writer::write` does.
    pub fn write<W: CountedWrite>(&self, alloc: Global, w: &mut W) -> Result<()>
        ensures { AnswersWrite W.contents W.failed self.now.inner w.old w.new result }
    {
        self.inner.write(alloc, w)
    }

    /// Writes the bytes of `image_bytes` to a file that is created, as `Writer::write_to` does.
    pub fn write_to<'p, C: Creates<'p>>(
        &self,
        alloc: Global,
        files: &C,
        path: &'p str,
    ) -> std::result::Result<C::Created, NotWritten<C::Created>>
        ensures written { IfOk result (λ file.
            HoldsImage C.is_new self.now.inner (C.Created.contents file)) }
        ensures err { IfErr result (IsNotStored C.is_new C.Created.contents
            (C.may_fail files.now path.now) self.now.inner) }
        ensures unchanged { self.now.inner.changed ≡ false
            → IfErr result (λ refused. IsIo refused.error) }
    {
        self.inner.write_to(alloc, files, path)
    }

    /// Writes the bytes of `image_bytes` to a file of the system, as `Writer::write_to_path` does.
    pub fn write_to_path<R: Files + AllocGlobal>(&self, rt: &R, path: &str) -> Result<()>
        ensures err { IfErr result (MayNotWrite self.now.inner) }
        ensures unchanged { self.now.inner.changed ≡ false → IfErr result IsIo }
    {
        self.inner.write_to_path(rt, path)
    }
}
