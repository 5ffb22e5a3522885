//! What reading a part of a source gives, and why it stops.

use cl_ast::{LexKind, TokenKind};
use cl_ground::NoMemory;

/// A token that was read, and the bytes behind it.
#[derive(Drop)]
pub struct Read<'a> {
    pub kind: TokenKind,
    pub rest: &'a [u8],
}

/// Why a part of a source isn't read: a fault and the bytes from its place, or want of memory.
#[derive(Clone, Copy)]
pub enum Stop<'a> {
    Fault(LexKind, &'a [u8]),
    NoMemory,
}

impl From<NoMemory> for Stop<'_> {
    ghost use Rattle.std.specs.Prelude.{◌≡◌};
    ghost use Rattle.cl_token.specs.declared.stop.Stop.TheVariants.{NoMemory};

    ghost from_gives = { λ _ e. e ≡ NoMemory };

    fn from(_: NoMemory) -> Self {
        Stop::NoMemory
    }
}
