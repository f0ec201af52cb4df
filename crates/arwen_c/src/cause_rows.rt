//! The words for causes.
ghost use Rattle.std.specs.Prelude.{◌≡◌, map};
ghost use Rattle.arwen_c.specs.CauseWords.{causes, row_model, words_in, words_of};

/// A cause: the one place that says how its number is told.
#[derive(Clone, Copy, Debug)]
pub struct CauseRow {
    /// The number of the cause.
    pub number: u32,
    /// The words for the cause, of no particular file.
    pub words: &'static str,
}

/// All causes. `arwen.h` names them.
static CAUSES: [CauseRow; 61] = [
    CauseRow {
        number: 1,
        words: "the file can't be read",
    },
    CauseRow {
        number: 2,
        words: "neither an ELF file nor a Mach-O file",
    },
    CauseRow {
        number: 101,
        words: "a header, a table or a range lies past the end of the ELF file",
    },
    CauseRow {
        number: 102,
        words: "the ELF file has a class, byte order, version, type or size that isn't read",
    },
    CauseRow {
        number: 103,
        words: "headers or tables of the ELF file contradict each other",
    },
    CauseRow {
        number: 104,
        words: "a text of the ELF file lies outside its string table, or has no NUL there",
    },
    CauseRow {
        number: 105,
        words: "a number of the ELF file is past its field",
    },
    CauseRow {
        number: 106,
        words: "the first four bytes aren't those of an ELF file",
    },
    CauseRow {
        number: 121,
        words: "a number of the edited ELF file is past its field",
    },
    CauseRow {
        number: 141,
        words: "the file has no dynamic section",
    },
    CauseRow {
        number: 142,
        words: "the file has no interpreter",
    },
    CauseRow {
        number: 143,
        words: "no ABI has this name",
    },
    CauseRow {
        number: 144,
        words: "the page size is no power of two, or below 1024",
    },
    CauseRow {
        number: 145,
        words: "the file has no run path",
    },
    CauseRow {
        number: 146,
        words: "two blocks overlap that never move",
    },
    CauseRow {
        number: 147,
        words: "a text has a NUL in it",
    },
    CauseRow {
        number: 148,
        words: "files for MIPS are read alone",
    },
    CauseRow {
        number: 149,
        words: "a relocation names the symbol",
    },
    CauseRow {
        number: 150,
        words: "the dynamic symbols can't get other numbers",
    },
    CauseRow {
        number: 151,
        words: "something else needs the section",
    },
    CauseRow {
        number: 152,
        words: "there would be more program headers than a file can have",
    },
    CauseRow {
        number: 201,
        words: "the first four bytes are no magic of a Mach-O file that is read",
    },
    CauseRow {
        number: 202,
        words: "the header, the load commands or the table of slices don't lie in the file",
    },
    CauseRow {
        number: 203,
        words: "the size of a load command doesn't fit the commands or its kind",
    },
    CauseRow {
        number: 204,
        words: "the offset of a text is past the end of its load command",
    },
    CauseRow {
        number: 205,
        words: "the sizes of the load commands don't add up",
    },
    CauseRow {
        number: 206,
        words: "a slice lies outside the fat file, or begins inside its header or its table",
    },
    CauseRow {
        number: 207,
        words: "two slices of the fat file share a byte",
    },
    CauseRow {
        number: 208,
        words: "the file has more than 4,294,967,295 bytes",
    },
    CauseRow {
        number: 209,
        words: "a slice of the fat file is a Unix archive",
    },
    CauseRow {
        number: 221,
        words: "the new load command can't be built: its text holds a NUL, or is too long",
    },
    CauseRow {
        number: 222,
        words: "no run path has this text",
    },
    CauseRow {
        number: 223,
        words: "no library that is loaded has this name",
    },
    CauseRow {
        number: 224,
        words: "the file has no name of its own",
    },
    CauseRow {
        number: 225,
        words: "there is no room for the load commands",
    },
    CauseRow {
        number: 241,
        words: "a load command is too short to say where a code signature is",
    },
    CauseRow {
        number: 242,
        words: "more than one load command tells of a code signature",
    },
    CauseRow {
        number: 243,
        words: "the code signature begins before the load commands end",
    },
    CauseRow {
        number: 244,
        words: "the edit changed bytes of the code signature, or behind its beginning",
    },
    CauseRow {
        number: 251,
        words: "the code signature ends past the file's end",
    },
    CauseRow {
        number: 252,
        words: "the code signature doesn't begin with a SuperBlob",
    },
    CauseRow {
        number: 253,
        words: "the SuperBlob's length is less than its header's, or more than there is",
    },
    CauseRow {
        number: 254,
        words: "the SuperBlob's index ends past its end",
    },
    CauseRow {
        number: 255,
        words: "a blob stands inside the header or the index, ends past the end, or overlaps another",
    },
    CauseRow {
        number: 256,
        words: "a code directory contradicts its bytes",
    },
    CauseRow {
        number: 257,
        words: "pages are hashed in a way that isn't known",
    },
    CauseRow {
        number: 258,
        words: "the exponent of the page size is above 31",
    },
    CauseRow {
        number: 259,
        words: "the pages are scattered",
    },
    CauseRow {
        number: 260,
        words: "there isn't one slot for each page",
    },
    CauseRow {
        number: 261,
        words: "the signed bytes end past the beginning of the code signature",
    },
    CauseRow {
        number: 262,
        words: "there is no code directory at slot type 0",
    },
    CauseRow {
        number: 301,
        words: "a group has no word",
    },
    CauseRow {
        number: 302,
        words: "a group's first word names no edit",
    },
    CauseRow {
        number: 303,
        words: "the edit takes another number of words",
    },
    CauseRow {
        number: 304,
        words: "a word has no = between an old name and a new one",
    },
    CauseRow {
        number: 305,
        words: "a word is no decimal number of 32 bits",
    },
    CauseRow {
        number: 310,
        words: "a word is no UTF-8",
    },
    CauseRow {
        number: 321,
        words: "no edit has this kind",
    },
    CauseRow {
        number: 322,
        words: "the edit takes another number of texts",
    },
    CauseRow {
        number: 323,
        words: "a text is no UTF-8, or no decimal number of 32 bits",
    },
    CauseRow {
        number: 324,
        words: "the edit is for files of the other format",
    },
];

/// All causes.
#[tactic(auto, unfolding(crate::specs::CauseWords::causes))]
fn cause_rows() -> &'static [CauseRow]
    ensures { map row_model result.now ≡ causes }
{
    &CAUSES
}

/// The words for a number in some rows; no words where it is in none.
fn words_among(rows: &'static [CauseRow], number: u32) -> &'static str
    ensures { result.now ≡ words_in (map row_model rows.entry.now) number }
{
    for row in rows {
        if row.number == number {
            return row.words;
        }
    }
    ""
}

/// The words for a cause, of no particular file; no words for a number of none.
pub(crate) fn cause_words(number: u32) -> &'static str
    ensures { result.now ≡ words_of number }
{
    words_among(cause_rows(), number)
}
