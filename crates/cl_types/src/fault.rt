ghost use Rattle.std.specs.Prelude.{◌≡◌};
ghost use Rattle.cl_types.specs.Faults.{rank, comes_before};

/// What is wrong at a place. (This project; in the order in which faults at one place are told.)
#[derive(Clone, Copy, Debug, PartialEq, Eq)]
pub enum TypeKind {
    /// No function `real_main` without parameters is there. Its place is 0.
    NoMain,
    /// A name that is used isn't known there. Its place is the name.
    UnknownName,
    /// A name is declared again in its scope. Its place is the later name.
    TwiceDeclared,
    /// A value, a target, a size or an initial value isn't of a kind that may stand there.
    WrongType,
    /// A call has another number of arguments than the function has parameters, `printf` another than its
    /// text has directives, or an operation has more than 16 fields.
    WrongCount,
    /// A `%` in the text of `printf` begins no directive. Its place is the text.
    BadFormat,
    /// A formal stands in `out` or `eval`. Its place is the `?`.
    BadField,
    /// `break` or `continue` stands outside of a loop. Its place is the word.
    NoLoop,
    /// It is the operation with which there are more than 1,024. Its place is the word.
    TooManySites,
    /// It is the function with which there are more than 512. Its place is the name.
    TooManyFunctions,
}

/// A fault of a tree.
#[derive(Clone, Copy, Debug, PartialEq, Eq)]
pub struct Fault {
    /// The byte offset in the source.
    pub place: u32,
    /// What is wrong there.
    pub kind: TypeKind,
}

impl TypeKind {
    /// Its place in the order of kinds.
    fn rank(self) -> u8
        ensures { result ≡ rank self }
    {
        match self {
            TypeKind::NoMain => 0,
            TypeKind::UnknownName => 1,
            TypeKind::TwiceDeclared => 2,
            TypeKind::WrongType => 3,
            TypeKind::WrongCount => 4,
            TypeKind::BadFormat => 5,
            TypeKind::BadField => 6,
            TypeKind::NoLoop => 7,
            TypeKind::TooManySites => 8,
            TypeKind::TooManyFunctions => 9,
        }
    }
}

impl Fault {
    /// Whether it comes before another: at an earlier place, or at one place with an earlier kind.
    pub fn comes_before(self, other: Fault) -> bool
        ensures { result ≡ comes_before self other }
    {
        self.place < other.place
            || (self.place == other.place && self.kind.rank() < other.kind.rank())
    }
}
