mod alone;
mod faults;
mod large;
mod prints;
mod refusals;
mod runs;
mod walks;
mod words;

use cl_outside::{MemSink, MemSource};
use clinda::run;
use std::alloc::{AllocError, Global};
use std::process::ExitCode;

// More bytes than a text of a table has.
const ROOM: usize = 4096;

// A call of the program: its arguments, the program's name first, and its source; how many bytes a read gives and a
// write takes at most, the numbers of the reads and of the writes that fail, and how many bytes are taken in all.
#[derive(Clone, Copy)]
struct Call<'a> {
    arguments: &'a [&'a str],
    source: &'a [u8],
    read_piece: usize,
    write_piece: usize,
    failing_read: &'a [u64],
    failing_write: &'a [u64],
    room: usize,
}

// How a call ended, and what it wrote.
#[derive(Drop)]
struct Told {
    code: ExitCode,
    text: Vec<u8>,
}

// A source, with the text and the status of a call on it.
struct Row {
    source: &'static str,
    text: &'static str,
    status: u8,
}

// A call that nothing disturbs.
fn call_of<'a>(arguments: &'a [&'a str], source: &'a [u8]) -> Call<'a> {
    Call {
        arguments,
        source,
        read_piece: ROOM,
        write_piece: ROOM,
        failing_read: &[],
        failing_write: &[],
        room: ROOM,
    }
}

fn seq<'a>(source: &'a [u8]) -> Call<'a> {
    call_of(&["clinda", "seq", "1"], source)
}

fn print<'a>(source: &'a [u8]) -> Call<'a> {
    call_of(&["clinda", "print"], source)
}

fn words_of(alloc: Global, words: &[&str]) -> Result<Vec<String>, AllocError> {
    let mut all = Vec::new(alloc);
    for word in words {
        all.push(String::from_str(alloc, word)?)?;
    }
    Ok(all)
}

fn source_of(alloc: Global, call: &Call<'_>) -> Result<MemSource, AllocError> {
    let bytes = Vec::from_slice(alloc, call.source)?;
    let failing = Vec::from_slice(alloc, call.failing_read)?;
    Ok(MemSource::new(bytes, call.read_piece.max(1), failing))
}

fn sink_of(alloc: Global, call: &Call<'_>) -> Option<MemSink> {
    let failing = Vec::from_slice(alloc, call.failing_write).ok()?;
    MemSink::new(alloc, call.room, call.write_piece.max(1), failing).ok()
}

// Makes a call. Nothing is told where memory runs out before it, or for what it wrote.
fn tell(alloc: Global, call: &Call<'_>) -> Option<Told> {
    let words = words_of(alloc, call.arguments).ok()?;
    let mut src = source_of(alloc, call).ok()?;
    let mut out = sink_of(alloc, call)?;
    let code = run(alloc, words.as_slice(), &mut src, &mut out);
    let text = Vec::from_slice(alloc, out.written()).ok()?;
    Some(Told { code, text })
}

// Whether a call ended with this status and wrote this.
fn is_told(told: &Told, text: &[u8], status: u8) -> bool {
    told.code == ExitCode::from(status) && told.text.as_slice() == text
}

// Whether a call gives this text and this status.
fn gives(alloc: Global, call: &Call<'_>, text: &[u8], status: u8) -> bool {
    match tell(alloc, call) {
        Some(told) => is_told(&told, text, status),
        None => false,
    }
}

// Whether a row holds for a call in pieces of these sizes.
fn holds(
    alloc: Global,
    arguments: &[&str],
    row: &Row,
    read_piece: usize,
    write_piece: usize,
) -> bool {
    let call = Call {
        read_piece,
        write_piece,
        ..call_of(arguments, row.source.as_bytes())
    };
    gives(alloc, &call, row.text.as_bytes(), row.status)
}

// The place of the first row that doesn't hold for calls in pieces of these sizes.
fn first_wrong(
    alloc: Global,
    arguments: &[&str],
    rows: &[Row],
    read_piece: usize,
    write_piece: usize,
) -> Option<usize> {
    for i in 0..rows.len() {
        if !holds(alloc, arguments, &rows[i], read_piece, write_piece) {
            return Some(i);
        }
    }
    None
}
