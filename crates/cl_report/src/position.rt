ghost use Rattle.std.specs.Prelude.{◌≡◌, ◌+◌, ◌<◌, ◌≤◌, length, min, take};
ghost use Rattle.cl_report.specs.Positions.{IsAt, line_from, column_from};

/// Where a byte stands in a source. (This project.)
#[derive(Clone, Copy)]
pub struct Position {
    /// How many bytes stand before it.
    pub offset: usize,
    /// Its line, from 1. Lines end at LF.
    pub line: u64,
    /// Its column, from 1. Columns count bytes.
    pub column: u64,
}

/// The position of the first byte.
pub fn beginning(source: &[u8]) -> Position
    ensures at { IsAt source.now result }
    ensures offset { result.offset ≡ 0 }
{
    let _ = source;
    Position {
        offset: 0,
        line: 1,
        column: 1,
    }
}

// The position behind the byte at a position.
#[tactic(auto, using(crate::proofs::PositionLaws::line_at, crate::proofs::PositionLaws::column_at))]
fn behind(source: &[u8], known: Position) -> Position
    requires at { IsAt source.now known }
    requires within { known.offset < length source.now }
    ensures at { IsAt source.now result }
    ensures offset { result.offset ≡ known.offset + 1 }
{
    let offset = known.offset + 1;
    if source[known.offset] == b'\n' {
        Position {
            offset,
            line: known.line + 1,
            column: 1,
        }
    } else {
        Position {
            offset,
            line: known.line,
            column: known.column + 1,
        }
    }
}

// The position of a byte that doesn't stand before a known position. Only the bytes between are looked at.
fn advanced(source: &[u8], known: Position, place: usize) -> Position
    requires at { IsAt source.now known }
    requires behind { known.offset ≤ place }
    ensures at { IsAt source.now result }
    ensures offset { result.offset ≡ min place (length source.now) }
{
    let end = place.min(source.len());
    let mut position = known;
    for _offset in known.offset..end {
        position = behind(source, position);
    }
    position
}

/// The position of a byte, by one that is known: the bytes between are looked at, or all before it where it
/// stands before the known one. A place past the end counts as the end.
pub fn position_of(source: &[u8], known: Position, place: usize) -> Position
    requires { IsAt source.now known }
    ensures at { IsAt source.now result }
    ensures line { result.line ≡ line_from 1 (take place source.now) }
    ensures column { result.column ≡ column_from 1 (take place source.now) }
{
    let from = if known.offset <= place {
        known
    } else {
        beginning(source)
    };
    advanced(source, from, place)
}
