use super::{Call, call_of, gives};
use std::alloc::Global;

// Arguments, with whether those behind the first spell a command.
struct Row {
    arguments: &'static [&'static str],
    spell: bool,
}

const ROWS: [Row; 27] = [
    Row {
        arguments: &["clinda", "seq", "0"],
        spell: true,
    },
    Row {
        arguments: &["clinda", "seq", "18446744073709551615"],
        spell: true,
    },
    Row {
        arguments: &["clinda", "seq", "1", "steps=0"],
        spell: true,
    },
    Row {
        arguments: &["clinda", "seq", "1", "steps=1099511627776"],
        spell: true,
    },
    Row {
        arguments: &["clinda", "print"],
        spell: true,
    },
    Row {
        arguments: &["", "print"],
        spell: true,
    },
    Row {
        arguments: &[],
        spell: false,
    },
    Row {
        arguments: &["clinda"],
        spell: false,
    },
    Row {
        arguments: &["print"],
        spell: false,
    },
    Row {
        arguments: &["clinda", "seq"],
        spell: false,
    },
    Row {
        arguments: &["clinda", "seq", ""],
        spell: false,
    },
    Row {
        arguments: &["clinda", "seq", "01"],
        spell: false,
    },
    Row {
        arguments: &["clinda", "seq", "+1"],
        spell: false,
    },
    Row {
        arguments: &["clinda", "seq", "-1"],
        spell: false,
    },
    Row {
        arguments: &["clinda", "seq", "1x"],
        spell: false,
    },
    Row {
        arguments: &["clinda", "seq", "18446744073709551616"],
        spell: false,
    },
    Row {
        arguments: &["clinda", "Seq", "1"],
        spell: false,
    },
    Row {
        arguments: &["clinda", "seq", "1", "2"],
        spell: false,
    },
    Row {
        arguments: &["clinda", "seq", "1", "steps="],
        spell: false,
    },
    Row {
        arguments: &["clinda", "seq", "1", "steps=01"],
        spell: false,
    },
    Row {
        arguments: &["clinda", "seq", "1", "steps=1099511627777"],
        spell: false,
    },
    Row {
        arguments: &["clinda", "seq", "1", "steps=1 "],
        spell: false,
    },
    Row {
        arguments: &["clinda", "seq", "1", "entries=1"],
        spell: false,
    },
    Row {
        arguments: &["clinda", "seq", "1", "steps=1", "steps=1"],
        spell: false,
    },
    Row {
        arguments: &["clinda", "seq", "steps=1", "1"],
        spell: false,
    },
    Row {
        arguments: &["clinda", "print", "1"],
        spell: false,
    },
    Row {
        arguments: &["clinda", "print", "seq", "1"],
        spell: false,
    },
];

// The first read fails: words that spell a command are told by that, and other words are refused before it.
fn holds(alloc: Global, row: &Row) -> bool {
    let call = Call {
        failing_read: &[1],
        ..call_of(row.arguments, b"real_main(){}")
    };
    if row.spell {
        gives(alloc, &call, b"", 4)
    } else {
        gives(alloc, &call, b"words refused\n", 1)
    }
}

// The place of the first row that doesn't hold.
fn first_wrong(alloc: Global, rows: &[Row]) -> Option<usize> {
    for i in 0..rows.len() {
        if !holds(alloc, &rows[i]) {
            return Some(i);
        }
    }
    None
}

#[test]
fn words_spell_a_command_or_are_refused(rt: HostRuntime) {
    assert_eq!(rt; first_wrong(rt.alloc(), &ROWS), None);
}
