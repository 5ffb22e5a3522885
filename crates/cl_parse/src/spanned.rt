ghost use Rattle.std.specs.Prelude.{◌++◌, Ok};
ghost use Rattle.cl_rules.specs.Unroll.{onwards};
ghost use Rattle.cl_ast.specs.Grammar as parts;
ghost use Rattle.cl_parse_expr.specs.Steps.{plain_tokens, reading, Gives};
ghost use Rattle.cl_parse.specs.Readings.{next_spanned_reading, more_spanned_reading};

use cl_ast::{Mark, Spanned, Token};
use cl_parse_expr::{Class, Failure, Level, begins, level, span, take};
use sqlite_items::Items;
use std::alloc::Global;

/// Reads an expression, and keeps the place of all its tokens.
#[tactic(auto, using(crate::proofs::Equations::spanned_reads))]
pub fn spanned(
    alloc: Global,
    nesting: u8,
    tokens: &[Token],
) -> Result<(Spanned, &[Token]), Failure<'_>>
    ensures { Gives result (reading parts.spanned nesting (plain_tokens tokens.now)) }
{
    let (expr, rest) = level(alloc, Level::Expr, nesting, tokens)?;
    let span = span(tokens, rest);
    Ok((Spanned { expr, span }, rest))
}

/// Reads a comma and an expression.
#[tactic(auto, using(crate::proofs::Equations::next_spanned_reads))]
fn next_spanned(
    alloc: Global,
    nesting: u8,
    tokens: &[Token],
) -> Result<(Spanned, &[Token]), Failure<'_>>
    ensures { Gives result (next_spanned_reading nesting (plain_tokens tokens.now)) }
{
    let (_, rest) = take(Class::Mark(Mark::Comma), tokens)?;
    spanned(alloc, nesting, rest)
}

/// Reads expressions behind commas, as many as there are, and puts them behind those found.
#[tactic(auto, using(crate::proofs::Equations::more_spanned_reads))]
pub fn more_spanned(
    alloc: Global,
    nesting: u8,
    found: Items<Spanned>,
    tokens: &[Token],
) -> Result<(Items<Spanned>, &[Token]), Failure<'_>>
    ensures { Gives result (onwards (more_spanned_reading nesting (plain_tokens tokens.now)) (λ xs us. Ok (found ++ xs, us))) }
{
    let mut all = found;
    let mut rest = tokens;
    while begins(Class::Mark(Mark::Comma), rest) {
        let (next, behind) = next_spanned(alloc, nesting, rest)?;
        all.push(next)?;
        rest = behind;
    }
    Ok((all, rest))
}
