ghost use Rattle.cl_ground.specs.declared.limits.TheConstants.{MOST_NESTING};
ghost use Rattle.std.specs.Prelude.{ℕ, ◌≡◌, ◌-◌, ◌<◌, ◌^◌, drop, length, IfOk};
ghost use Rattle.cl_parse_expr.specs.Steps.{plain_tokens};
ghost use Rattle.cl_parse_expr.specs.Expression.{IsRead, IsRefused};

use crate::Failure;
use crate::class::Level;
use crate::expr::level;
use cl_ast::{Expr, ParseEnd, Token};
use cl_ground::MOST_NESTING;
use std::alloc::Global;

/// The tokens from this place on; none from the end on.
fn from(tokens: &[Token], at: usize) -> &[Token]
    ensures { result.now ≡ drop at tokens.now }
{
    match tokens.get(at..) {
        Some(rest) => rest,
        None => &[],
    }
}

/// The place of tokens that stand at the end of others.
fn place(tokens: &[Token], rest: &[Token]) -> u32
    requires { length tokens.now < 2 ^ 32 }
    ensures { result ≡ length tokens.now - length rest.now }
{
    tokens.len().saturating_sub(rest.len()) as u32
}

/// Reads an expression from a place on, where so many counted parts are open.
///
/// The answer is its tree and the place after it. It ends where nothing goes on, by `Syntax`, or where a part
/// begins that stands too deep, by `TooDeep`; `NoMemory` comes where the allocator refused memory.
pub fn expression(
    alloc: Global,
    tokens: &[Token],
    at: usize,
    depth: u8,
) -> Result<(Expr, usize), ParseEnd>
    requires { length tokens.now < 2 ^ 32 }
    ensures tree { IfOk result (λ (found, end). IsRead (MOST_NESTING - depth) (drop at (plain_tokens tokens.now)) found (drop end (plain_tokens tokens.now))) }
    ensures refused { IsRefused (MOST_NESTING - depth) at (plain_tokens tokens.now) result }
{
    match level(
        alloc,
        Level::Expr,
        MOST_NESTING.saturating_sub(depth),
        from(tokens, at),
    ) {
        Ok((found, rest)) => Ok((found, tokens.len().saturating_sub(rest.len()))),
        Err(Failure::Syntax(rest)) => Err(ParseEnd::Syntax {
            token: place(tokens, rest),
        }),
        Err(Failure::TooDeep(rest)) => Err(ParseEnd::TooDeep {
            token: place(tokens, rest),
        }),
        Err(Failure::NoMemory) => Err(ParseEnd::NoMemory),
    }
}
