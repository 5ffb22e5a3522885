/// What an act did, without its fields (Gelernter 1985; Carriero and Gelernter, "How to Write Parallel
/// Programs").
#[derive(Clone, Copy, Debug, PartialEq, Eq)]
pub enum Kind {
    /// Added a tuple.
    Out,
    /// Took a tuple.
    In,
    /// Read a tuple and left it.
    Rd,
    /// As `In`, by an `inp`.
    InpHit,
    /// An `inp` for which nothing matched.
    InpMiss,
    /// As `Rd`, by an `rdp`.
    RdpHit,
    /// An `rdp` for which nothing matched.
    RdpMiss,
    /// Made a process that computes a live tuple.
    Eval,
    /// Added the tuple that a process has computed from its live tuple.
    Land,
}
