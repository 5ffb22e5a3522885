use super::{Call, call_of, gives};
use std::alloc::{AllocError, Global};

const SEQ: &[&str] = &["clinda", "seq", "1"];

const PRINT: &[&str] = &["clinda", "print"];

// Texts, each so many times.
type Parts = &'static [(&'static str, usize)];

// A call on a large source: its arguments, its source and its text by their parts, and its status.
struct Row {
    arguments: &'static [&'static str],
    source: Parts,
    text: Parts,
    status: u8,
}

// Calls at a limit and beside it.
const ROWS: [Row; 7] = [
    // 64 parts stand inside one another: 63 brackets in a block.
    Row {
        arguments: PRINT,
        source: &[
            ("real_main(){int x;x=", 1),
            ("(", 63),
            ("1", 1),
            (")", 63),
            (";}", 1),
        ],
        text: &[("int real_main ( ) {\nint x ;\nx = 1 ;\n}\n", 1)],
        status: 0,
    },
    Row {
        arguments: PRINT,
        source: &[
            ("real_main(){int x;x=", 1),
            ("(", 64),
            ("1", 1),
            (")", 64),
            (";}", 1),
        ],
        text: &[("refused TooDeep at 1:84\n", 1)],
        status: 2,
    },
    // A source has at most 1,024 operations.
    Row {
        arguments: SEQ,
        source: &[("real_main(){", 1), ("out(\"x\");", 1_024), ("}", 1)],
        text: &[(
            "process 0 ended (0) acts 1024\nstatus 0 processes 1 acts 1024\n",
            1,
        )],
        status: 0,
    },
    Row {
        arguments: SEQ,
        source: &[("real_main(){", 1), ("out(\"x\");", 1_025), ("}", 1)],
        text: &[("refused TooManySites at 1:9229\n", 1)],
        status: 2,
    },
    // A process prints at most 65,536 bytes.
    Row {
        arguments: SEQ,
        source: &[("real_main(){int i;for(i=0;i<65537;i++)printf(\"x\");}", 1)],
        text: &[
            ("process 0 trapped OutputLimit acts 0\n", 1),
            ("x", 65_536),
            ("\nstatus 3 processes 1 acts 0\n", 1),
        ],
        status: 3,
    },
    // A string of 10,000 bytes.
    Row {
        arguments: SEQ,
        source: &[
            ("real_main(){out(\"", 1),
            ("x", 10_000),
            ("\");in(\"x\");}", 1),
        ],
        text: &[("process 0 waiting acts 1\nstatus 7 processes 1 acts 1\n", 1)],
        status: 7,
    },
    Row {
        arguments: PRINT,
        source: &[
            ("real_main(){out(\"", 1),
            ("x", 10_000),
            ("\");in(\"x\");}", 1),
        ],
        text: &[
            ("int real_main ( ) {\nout ( \"", 1),
            ("x", 10_000),
            ("\" ) ;\nin ( \"x\" ) ;\n}\n", 1),
        ],
        status: 0,
    },
];

// A source has at most 1,048,576 bytes.
const SIZES: [Row; 2] = [
    Row {
        arguments: PRINT,
        source: &[
            ("real_main(){}//", 1),
            ("xxxxxxxxxxxxxxxx", 65_535),
            ("x", 1),
        ],
        text: &[("int real_main ( ) {\n}\n", 1)],
        status: 0,
    },
    Row {
        arguments: SEQ,
        source: &[
            ("real_main(){}", 1),
            ("                ", 65_535),
            ("    ", 1),
        ],
        text: &[("refused TooLarge\n", 1)],
        status: 2,
    },
];

fn add_parts(bytes: &mut Vec<u8>, part: &[u8], count: usize) -> Result<(), AllocError> {
    for _ in 0..count {
        bytes.extend_from_slice(part)?;
    }
    Ok(())
}

fn joined(alloc: Global, parts: &[(&str, usize)]) -> Result<Vec<u8>, AllocError> {
    let mut bytes = Vec::new(alloc);
    for part in parts {
        add_parts(&mut bytes, part.0.as_bytes(), part.1)?;
    }
    Ok(bytes)
}

// Whether a call on this source gives this text.
fn gives_large(alloc: Global, row: &Row, source: &[u8], text: &[u8]) -> bool {
    let call = Call {
        room: text.len() + 1,
        ..call_of(row.arguments, source)
    };
    gives(alloc, &call, text, row.status)
}

fn holds(alloc: Global, row: &Row) -> bool {
    match (joined(alloc, row.source), joined(alloc, row.text)) {
        (Ok(source), Ok(text)) => gives_large(alloc, row, source.as_slice(), text.as_slice()),
        _ => false,
    }
}

// The place of the first row that doesn't hold.
fn first_wrong(alloc: Global, rows: &[Row]) -> Option<usize> {
    for i in 0..rows.len() {
        if !holds(alloc, &rows[i]) {
            return Some(i);
        }
    }
    None
}

#[test]
fn limits_count_exactly(rt: HostRuntime) {
    assert_eq!(rt; first_wrong(rt.alloc(), &ROWS), None);
}

#[test]
fn the_size_of_a_source_counts_in_bytes(rt: HostRuntime) {
    assert_eq!(rt; first_wrong(rt.alloc(), &SIZES), None);
}
