use cl_ast::LexKind;
use cl_types::TypeKind;
use thiserror::Error;

/// Why a source is refused. (This project.)
#[derive(Clone, Copy, Debug, PartialEq, Eq)]
pub enum RefusalKind {
    /// It isn't tokens.
    Lex(LexKind),
    /// A token with which nothing of the grammar goes on, or the end where more has to come.
    Syntax,
    /// A token at which a part begins that stands inside 64 others.
    TooDeep,
    /// Something is wrong with the names and types of its tree.
    Type(TypeKind),
    /// An `eval` in a source without faults: a run has one process as yet.
    NotBuilt,
}

/// A refusal of a source: why, and where.
#[derive(Clone, Copy, Debug, PartialEq, Eq, Error)]
#[error("the source is refused at byte {place}")]
pub struct Refusal {
    /// Why.
    pub kind: RefusalKind,
    /// The byte offset of the place in the source, its length for its end.
    pub place: usize,
}
