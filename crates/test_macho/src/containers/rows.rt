//! Files, steps in them, and what comes of each. A row runs in a thin file and in a fat file that holds it twice,
//! by the calls of each container.

use super::{Edit, Sample, Step, walks};

// A command with the run path `/a`, low byte first.
const PATH: &[u8] = b"\x1c\0\0\x80\x10\0\0\0\x0c\0\0\0/a\0\0";

// A command with the run path `/usr/local/lib`, low byte first, up to its text's end.
const LONG_PATH: &[u8] = b"\x1c\0\0\x80\x20\0\0\0\x0c\0\0\0/usr/local/lib";

// The front of a header of 64 bits, low byte first, up to its counts.
const WIDE: &[u8] = b"\xcf\xfa\xed\xfe\x07\0\0\x01\x03\0\0\0\x06\0\0\0";

// A file without commands, and room for 32 bytes of them.
const EMPTY: Sample<'static> = Sample {
    length: 64,
    parts: &[(0, WIDE)],
};

// The first step in a file without commands.
const ADDED: Step<'static> = Step {
    edits: &[Edit::Add("/usr/local/lib")],
    answer: "Ok(())",
    changes: &[(16, b"\x01\0\0\0\x20\0\0\0"), (32, LONG_PATH)],
};

const NO_ROOM_AT_64: Step<'static> = Step {
    edits: &[Edit::Add("/usr/local/lib")],
    answer: "NoRoom { needed: 96, available: 64 }",
    changes: &[],
};

const FILL_WIDE: [Step<'static>; 2] = [ADDED, NO_ROOM_AT_64];

const WIDE_BIG: Sample<'static> = Sample {
    length: 64,
    parts: &[(0, b"\xfe\xed\xfa\xcf\x01\0\0\x07\0\0\0\x03\0\0\0\x06")],
};

const FILL_WIDE_BIG: [Step<'static>; 2] = [
    Step {
        edits: &[Edit::Add("/usr/local/lib")],
        answer: "Ok(())",
        changes: &[
            (16, b"\0\0\0\x01\0\0\0\x20"),
            (32, b"\x80\0\0\x1c\0\0\0\x20\0\0\0\x0c/usr/local/lib"),
        ],
    },
    NO_ROOM_AT_64,
];

const NARROW_LITTLE: Sample<'static> = Sample {
    length: 56,
    parts: &[(0, b"\xce\xfa\xed\xfe\x07\0\0\0\x03\0\0\0\x06\0\0\0")],
};

const NO_ROOM_AT_56: Step<'static> = Step {
    edits: &[Edit::Add("/usr/local/lib")],
    answer: "NoRoom { needed: 84, available: 56 }",
    changes: &[],
};

const FILL_NARROW: [Step<'static>; 2] = [
    Step {
        edits: &[Edit::Add("/usr/local/lib")],
        answer: "Ok(())",
        changes: &[
            (16, b"\x01\0\0\0\x1c\0\0\0"),
            (28, b"\x1c\0\0\x80\x1c\0\0\0\x0c\0\0\0/usr/local/lib"),
        ],
    },
    NO_ROOM_AT_56,
];

const NARROW_BIG: Sample<'static> = Sample {
    length: 56,
    parts: &[(0, b"\xfe\xed\xfa\xce\0\0\0\x07\0\0\0\x03\0\0\0\x06")],
};

const FILL_NARROW_BIG: [Step<'static>; 2] = [
    Step {
        edits: &[Edit::Add("/usr/local/lib")],
        answer: "Ok(())",
        changes: &[
            (16, b"\0\0\0\x01\0\0\0\x1c"),
            (28, b"\x80\0\0\x1c\0\0\0\x1c\0\0\0\x0c/usr/local/lib"),
        ],
    },
    NO_ROOM_AT_56,
];

// A file whose one command is that run path, and zeros up to twice its size.
const WITH_PATH: Sample<'static> = Sample {
    length: 96,
    parts: &[(0, WIDE), (16, b"\x01\0\0\0\x20"), (32, LONG_PATH)],
};

// A text of 51 bytes, whose command fills that file.
const FILLING: &str = "/123456789/123456789/123456789/123456789/123456789/";

// A text of 52 bytes, one more than fits.
const TOO_LONG: &str = "/123456789/123456789/123456789/123456789/123456789/a";

const CHANGE_PATH: [Step<'static>; 5] = [
    Step {
        edits: &[Edit::Change("/usr/local/lib", "a\0b")],
        answer: "CommandBuilderError(CStrError(NulInside { position: 1 }))",
        changes: &[],
    },
    Step {
        edits: &[Edit::Change("/zz", "a\0b")],
        answer: "RpathMissing(\"/zz\")",
        changes: &[],
    },
    Step {
        edits: &[Edit::Change("/usr/local/lib", TOO_LONG)],
        answer: "NoRoom { needed: 104, available: 96 }",
        changes: &[],
    },
    Step {
        edits: &[Edit::Change("/usr/local/lib", FILLING)],
        answer: "Ok(())",
        changes: &[
            (20, b"\x40"),
            (36, b"\x40"),
            (44, b"/123456789/123456789/123456789/123456789/123456789/"),
        ],
    },
    Step {
        edits: &[Edit::Change(FILLING, "/a")],
        answer: "Ok(())",
        changes: &[(20, b"\x10"), (32, PATH), (48, &[0; 48])],
    },
];

const EQUAL_PATHS: Sample<'static> = Sample {
    length: 96,
    parts: &[
        (0, WIDE),
        (16, b"\x03\0\0\0\x30"),
        (32, PATH),
        (48, b"\x1c\0\0\x80\x10\0\0\0\x0c\0\0\0/b"),
        (64, PATH),
    ],
};

const REMOVE_PATHS: [Step<'static>; 3] = [
    Step {
        edits: &[Edit::Remove("/a")],
        answer: "Ok(())",
        changes: &[
            (16, b"\x02\0\0\0\x20"),
            (44, b"/b"),
            (60, b"/a"),
            (64, &[0; 16]),
        ],
    },
    Step {
        edits: &[Edit::Remove("/zz")],
        answer: "RpathMissing(\"/zz\")",
        changes: &[],
    },
    Step {
        edits: &[Edit::Remove("/a")],
        answer: "Ok(())",
        changes: &[(16, b"\x01\0\0\0\x10"), (48, &[0; 16])],
    },
];

// A segment of 64 bits with one section, up to where its content is told.
const SEGMENT: &[u8] = b"\x19\0\0\0\x98\0\0\0__TEXT\0\0\0\0\0\0\0\0\0\0\0\0\0\0\0\0\0\0\
\0\x10\0\0\0\0\0\0\0\0\0\0\0\0\0\0\x20\x01\0\0\0\0\0\0\x05\0\0\0\x05\0\0\0\x01\0\0\0\0\0\0\0\
__text\0\0\0\0\0\0\0\0\0\0__TEXT\0\0\0\0\0\0\0\0\0\0\0\x01\0\0\0\0\0\0\x08\0\0\0\0\0\0\0";

// Four run paths behind the segment, step by step.
const FIRST_PATH: Step<'static> = Step {
    edits: &[Edit::Add("/a")],
    answer: "Ok(())",
    changes: &[(16, b"\x02\0\0\0\xa8"), (184, PATH)],
};

const SECOND_PATH: Step<'static> = Step {
    edits: &[Edit::Add("/a")],
    answer: "Ok(())",
    changes: &[(16, b"\x03\0\0\0\xb8"), (200, PATH)],
};

const THIRD_PATH: Step<'static> = Step {
    edits: &[Edit::Add("/a")],
    answer: "Ok(())",
    changes: &[(16, b"\x04\0\0\0\xc8"), (216, PATH)],
};

const FOURTH_PATH: Step<'static> = Step {
    edits: &[Edit::Add("/a")],
    answer: "Ok(())",
    changes: &[(16, b"\x05\0\0\0\xd8"), (232, PATH)],
};

const CONTENT_AT_256: Sample<'static> = Sample {
    length: 288,
    parts: &[
        (0, WIDE),
        (16, b"\x01\0\0\0\x98"),
        (32, SEGMENT),
        (152, b"\0\x01"),
        (256, b"content!"),
    ],
};

const STOP_BEFORE_CONTENT: [Step<'static>; 6] = [
    FIRST_PATH,
    SECOND_PATH,
    THIRD_PATH,
    FOURTH_PATH,
    Step {
        edits: &[Edit::Add("/a")],
        answer: "NoRoom { needed: 264, available: 256 }",
        changes: &[],
    },
    Step {
        edits: &[Edit::Remove("/a")],
        answer: "Ok(())",
        changes: &[(16, b"\x04\0\0\0\xc8"), (232, &[0; 16])],
    },
];

const CONTENT_AT_264: Sample<'static> = Sample {
    length: 288,
    parts: &[
        (0, WIDE),
        (16, b"\x01\0\0\0\x98"),
        (32, SEGMENT),
        (152, b"\x08\x01"),
        (264, b"content!"),
    ],
};

const REACH_CONTENT: [Step<'static>; 5] = [
    FIRST_PATH,
    SECOND_PATH,
    THIRD_PATH,
    FOURTH_PATH,
    Step {
        edits: &[Edit::Add("/a")],
        answer: "Ok(())",
        changes: &[(16, b"\x06\0\0\0\xe8"), (248, PATH)],
    },
];

// A library with its own name and a library that it loads, zeros behind its commands, and other bytes at the end.
const LIBRARY: Sample<'static> = Sample {
    length: 128,
    parts: &[
        (0, WIDE),
        (16, b"\x02\0\0\0\x40"),
        (
            32,
            b"\x0d\0\0\0\x20\0\0\0\x18\0\0\0\x01\0\0\0\x03\x02\x01\0\0\0\x01\0a.dylib",
        ),
        (
            64,
            b"\x0c\0\0\0\x20\0\0\0\x18\0\0\0\x02\0\0\0\0\0\x02\0\0\0\x01\0b.dylib",
        ),
        (120, b"content!"),
    ],
};

const CHANGE_NAME: [Step<'static>; 4] = [
    Step {
        edits: &[Edit::Name("a.dylib", "c.dylib")],
        answer: "DylibNameMissing(\"a.dylib\")",
        changes: &[],
    },
    Step {
        edits: &[Edit::Name("b.dylib", "/usr/lib/b.dylib")],
        answer: "Ok(())",
        changes: &[(20, b"\x50"), (68, b"\x30"), (88, b"/usr/lib/b.dylib")],
    },
    Step {
        edits: &[Edit::Name("b.dylib", "c.dylib")],
        answer: "DylibNameMissing(\"b.dylib\")",
        changes: &[],
    },
    Step {
        edits: &[Edit::Name("/usr/lib/b.dylib", "c")],
        answer: "Ok(())",
        changes: &[(20, b"\x40"), (68, b"\x20"), (88, b"c"), (89, &[0; 15])],
    },
];

const CHANGE_OWN_NAME: [Step<'static>; 2] = [
    Step {
        edits: &[Edit::Id("c")],
        answer: "Ok(())",
        changes: &[(56, b"c\0\0\0\0\0\0")],
    },
    Step {
        edits: &[Edit::Id("/lib/a.dylib")],
        answer: "Ok(())",
        changes: &[
            (20, b"\x48"),
            (36, b"\x28"),
            (56, b"/lib/a.dylib\0\0\0\0"),
            (
                72,
                b"\x0c\0\0\0\x20\0\0\0\x18\0\0\0\x02\0\0\0\0\0\x02\0\0\0\x01\0b.dylib",
            ),
            (103, &[0]),
        ],
    },
];

const LIBX: Sample<'static> = Sample {
    length: 72,
    parts: &[
        (0, WIDE),
        (16, b"\x01\0\0\0\x28"),
        (
            32,
            b"\x0d\0\0\0\x28\0\0\0\x18\0\0\0\x01\0\0\0\x03\x02\x01\0\0\0\x01\0libx.dylib",
        ),
    ],
};

const SHORTEN_NAME: [Step<'static>; 1] = [Step {
    edits: &[Edit::Id("a")],
    answer: "Ok(())",
    changes: &[(20, b"\x20"), (36, b"\x20"), (56, b"a\0\0\0\0\0\0\0\0\0")],
}];

const FIND_NO_NAMES: [Step<'static>; 3] = [
    Step {
        edits: &[Edit::Id("a")],
        answer: "DylibIdMissing",
        changes: &[],
    },
    Step {
        edits: &[Edit::Name("a", "b")],
        answer: "DylibNameMissing(\"a\")",
        changes: &[],
    },
    Step {
        edits: &[],
        answer: "Ok(())",
        changes: &[],
    },
];

const DECIDE_ROOM: [Step<'static>; 5] = [
    ADDED,
    Step {
        edits: &[Edit::Add("/a")],
        answer: "NoRoom { needed: 80, available: 64 }",
        changes: &[],
    },
    Step {
        edits: &[Edit::Add("/a"), Edit::Add("/b")],
        answer: "Err(MachoBatchError { index: 2, fault: NoRoom { needed: 96, available: 64 } })",
        changes: &[],
    },
    Step {
        edits: &[Edit::Add("/a"), Edit::Remove("/zz")],
        answer: "Err(MachoBatchError { index: 1, fault: RpathMissing(\"/zz\") })",
        changes: &[],
    },
    Step {
        edits: &[Edit::Add("/a"), Edit::Remove("/usr/local/lib")],
        answer: "Ok(())",
        changes: &[(20, b"\x10"), (32, PATH), (48, &[0; 16])],
    },
];

// A file without commands, and other bytes than zeros behind its header.
const FULL: Sample<'static> = Sample {
    length: 64,
    parts: &[(0, WIDE), (32, &[0xaa; 32])],
};

const CHANGE_NO_BYTE: [Step<'static>; 1] = [Step {
    edits: &[Edit::Add("/a"), Edit::Remove("/a")],
    answer: "Ok(())",
    changes: &[],
}];

const LEAVE_ZEROS: [Step<'static>; 2] = [
    Step {
        edits: &[Edit::Add("/a")],
        answer: "Ok(())",
        changes: &[(16, b"\x01\0\0\0\x10"), (32, PATH)],
    },
    Step {
        edits: &[Edit::Remove("/a")],
        answer: "Ok(())",
        changes: &[(16, b"\0\0\0\0\0"), (32, &[0; 16])],
    },
];

const MAKE_EACH_KIND: [Step<'static>; 1] = [Step {
    edits: &[
        Edit::Add("/b"),
        Edit::Change("/b", "/a"),
        Edit::Id("c"),
        Edit::Name("b.dylib", "d"),
    ],
    answer: "Ok(())",
    changes: &[
        (16, b"\x03\0\0\0\x50"),
        (56, b"c\0\0\0\0\0\0"),
        (88, b"d\0\0\0\0\0\0"),
        (96, PATH),
    ],
}];

// A name, a file, and steps in it. (The proof of a test spells all that its table holds, so tables are short.)
type Row = (&'static str, Sample<'static>, &'static [Step<'static>]);

// Files without commands, which are filled.
const FILLS: &[Row] = &[
    ("fill wide", EMPTY, &FILL_WIDE),
    ("fill wide big", WIDE_BIG, &FILL_WIDE_BIG),
    ("fill narrow", NARROW_LITTLE, &FILL_NARROW),
    ("fill narrow big", NARROW_BIG, &FILL_NARROW_BIG),
];

#[test]
fn fills_files(rt: HostRuntime) {
    for (name, sample, steps) in FILLS {
        walks(&rt, name, sample, steps);
    }
}

// Run paths that are changed and removed.
const PATHS: &[Row] = &[
    ("change path", WITH_PATH, &CHANGE_PATH),
    ("remove paths", EQUAL_PATHS, &REMOVE_PATHS),
    ("change no byte", FULL, &CHANGE_NO_BYTE),
    ("leave zeros", FULL, &LEAVE_ZEROS),
];

#[test]
fn follows_path_edits(rt: HostRuntime) {
    for (name, sample, steps) in PATHS {
        walks(&rt, name, sample, steps);
    }
}

// Room that ends at the content, or with the last list.
const ROOMS: &[Row] = &[
    ("stop before content", CONTENT_AT_256, &STOP_BEFORE_CONTENT),
    ("reach content", CONTENT_AT_264, &REACH_CONTENT),
    ("decide room", EMPTY, &DECIDE_ROOM),
];

#[test]
fn stays_within_room(rt: HostRuntime) {
    for (name, sample, steps) in ROOMS {
        walks(&rt, name, sample, steps);
    }
}

// Names of libraries, own ones and those that are loaded.
const NAMES: &[Row] = &[
    ("change name", LIBRARY, &CHANGE_NAME),
    ("change own name", LIBRARY, &CHANGE_OWN_NAME),
    ("shorten name", LIBX, &SHORTEN_NAME),
    ("find no names", EMPTY, &FIND_NO_NAMES),
    ("make each kind", LIBRARY, &MAKE_EACH_KIND),
];

#[test]
fn follows_name_edits(rt: HostRuntime) {
    for (name, sample, steps) in NAMES {
        walks(&rt, name, sample, steps);
    }
}
