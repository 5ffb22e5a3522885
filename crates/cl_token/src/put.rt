//! Putting a token last.

ghost use Rattle.cl_ground.specs.declared.limits.TheConstants.{MOST_BYTES};
ghost use Rattle.std.specs.Prelude.{◌≡◌, ◌≤◌, ◌++◌, ◌∷◌, [], map, length, OnOk};
ghost use Rattle.cl_ast.specs.Views.{plain_kind, plain_token};
ghost use Rattle.cl_token.specs.Scanning.{token_between};

use cl_ast::{Span, Token, TokenKind};
use cl_ground::{Items, NoMemory};

// The offset of the first of these bytes in a source of so many.
fn offset(total: usize, bytes: &[u8]) -> u32
    requires { total ≤ MOST_BYTES }
    ensures { result ≡ total - length bytes.now }
{
    total.saturating_sub(bytes.len()) as u32
}

ghost use Rattle.std.specs.Prelude.{◌-◌};

/// Puts the token last that stands between two places of a source of so many bytes, each told by the bytes
/// behind it.
#[tactic(auto, using(std::proofs::lemmas::List::map_push))]
pub fn put(
    tokens: &mut Items<Token>,
    total: usize,
    kind: TokenKind,
    bytes: &[u8],
    rest: &[u8],
) -> Result<(), NoMemory>
    requires { total ≤ MOST_BYTES }
    ensures { OnOk result (map plain_token tokens.new.items ≡ map plain_token tokens.old.items ++ token_between total (plain_kind kind) bytes.now rest.now ∷ []) }
{
    tokens.reserve(1)?;
    tokens.push(Token {
        kind,
        span: Span {
            start: offset(total, bytes),
            end: offset(total, rest),
        },
    });
    Ok(())
}
