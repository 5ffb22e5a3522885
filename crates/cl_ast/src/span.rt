/// The place of a token or of a part of the tree in a source: from its first byte to after its last.
///
/// Both are byte offsets from 0, at most 1,048,576 in a source that is read. (This project.)
#[derive(Clone, Copy, Debug, PartialEq, Eq)]
pub struct Span {
    /// The offset of the first byte.
    pub start: u32,
    /// The offset after the last byte.
    pub end: u32,
}
