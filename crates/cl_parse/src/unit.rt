ghost use Rattle.cl_ground.specs.declared.limits.TheConstants.{MOST_NESTING};
ghost use Rattle.std.specs.Prelude.{◌≡◌, ◌-◌, ◌<◌, ◌^◌, length, IfOk};
ghost use Rattle.cl_parse_expr.specs.Steps.{plain_tokens};
ghost use Rattle.cl_parse.specs.Unit.{IsTree, IsRefused};

use crate::item::items;
use cl_ast::{ParseEnd, Token, Unit};
use cl_ground::MOST_NESTING;
use cl_parse_expr::Failure;
use std::alloc::Global;

/// The place of tokens that stand at the end of others.
fn place(tokens: &[Token], rest: &[Token]) -> u32
    requires { length tokens.now < 2 ^ 32 }
    ensures { result ≡ length tokens.now - length rest.now }
{
    tokens.len().saturating_sub(rest.len()) as u32
}

/// Reads a whole source: definitions, variables and functions.
///
/// It ends where nothing goes on, by `Syntax`, or where a part begins that stands inside 64 others, by
/// `TooDeep`; the count of the tokens stands for their end. `NoMemory` comes where the allocator refused
/// memory.
pub fn parse(alloc: Global, tokens: &[Token]) -> Result<Unit, ParseEnd>
    requires { length tokens.now < 2 ^ 32 }
    ensures tree { IfOk result (λ unit. IsTree MOST_NESTING (plain_tokens tokens.now) unit.items) }
    ensures refused { IsRefused MOST_NESTING (plain_tokens tokens.now) result }
{
    match items(alloc, MOST_NESTING, tokens) {
        Ok((items, [])) => Ok(Unit { items }),
        Ok((_, rest)) => Err(ParseEnd::Syntax {
            token: place(tokens, rest),
        }),
        Err(Failure::Syntax(rest)) => Err(ParseEnd::Syntax {
            token: place(tokens, rest),
        }),
        Err(Failure::TooDeep(rest)) => Err(ParseEnd::TooDeep {
            token: place(tokens, rest),
        }),
        Err(Failure::NoMemory) => Err(ParseEnd::NoMemory),
    }
}
