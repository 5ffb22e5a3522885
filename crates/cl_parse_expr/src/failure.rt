use cl_ast::Token;
use std::alloc::AllocError;

/// Why reading stops.
pub enum Failure<'a> {
    /// Nothing goes on with the first of these tokens, or with their end.
    Syntax(&'a [Token]),
    /// With the first of these tokens a part begins that stands too deep in others.
    TooDeep(&'a [Token]),
    /// The allocator refused memory.
    NoMemory,
}

impl From<AllocError> for Failure<'_> {
    ghost use Rattle.std.specs.Prelude.{◌≡◌};
    ghost use Rattle.cl_parse_expr.specs.declared.failure.Failure.TheVariants.{NoMemory};

    ghost from_gives = { λ _ r. r ≡ NoMemory };

    fn from(_: AllocError) -> Self {
        Failure::NoMemory
    }
}
