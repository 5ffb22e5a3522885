/// What a run of one process may do.
#[derive(Clone, Copy, Debug, PartialEq, Eq)]
pub struct Bounds {
    /// The number of operations of its text.
    pub sites: usize,
    /// The most acts of its set.
    pub entries: u32,
}
