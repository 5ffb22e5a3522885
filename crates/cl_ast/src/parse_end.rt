/// Why tokens aren't read as a tree.
///
/// A token is counted from 0; the count of all tokens stands for their end. (This project.)
#[derive(Clone, Copy, Debug, PartialEq, Eq)]
pub enum ParseEnd {
    /// Nothing in the grammar goes on with this token.
    Syntax {
        /// The token.
        token: u32,
    },
    /// With this token a part begins that stands too deep in others.
    TooDeep {
        /// The token.
        token: u32,
    },
    /// The allocator refused memory.
    NoMemory,
}
