ghost use Rattle.std.specs.Prelude.{◌≡◌, ◌≤◌, length};
ghost use Rattle.cl_front.specs.Places.{place_at};

/// A place in a source.
#[derive(Clone, Copy, Debug, PartialEq, Eq)]
pub struct Place {
    /// The line, from 1: lines end at LF.
    pub line: u32,
    /// The column, from 1: columns count bytes.
    pub column: u32,
}

/// Line and column of a byte of a source, by its offset. One past the end counts as the end.
pub fn line_column(source: &[u8], place: usize) -> Place
    requires { length source.now ≤ 67108864 }
    ensures { result ≡ place_at source.now place }
{
    let before = &source[..place.min(source.len())];
    let mut line = 1;
    let mut column = 1;
    for byte in before {
        if *byte == b'\n' {
            line += 1;
            column = 1;
        } else {
            column += 1;
        }
    }
    Place { line, column }
}
