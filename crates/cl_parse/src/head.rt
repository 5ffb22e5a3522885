ghost use Rattle.cl_parse_expr.specs.Steps.{plain_tokens, Gives};
ghost use Rattle.cl_parse.specs.Readings.{condition_reading, maybe_simple_reading, maybe_expr_reading, head_reading};

use crate::simple::simple;
use cl_ast::{Expr, Mark, Stmt, Token};
use cl_parse_expr::{Class, Failure, Level, begins, level, take};
use sqlite_items::Boxed;
use std::alloc::Global;

/// The first statement of a `for`, its condition, and the statement behind each turn.
pub type Head = (Option<Boxed<Stmt>>, (Option<Expr>, Option<Boxed<Stmt>>));

/// Reads an expression in brackets.
#[tactic(auto, using(crate::proofs::Equations::condition_reads, crate::proofs::Equations::condition_refused))]
pub fn condition(
    alloc: Global,
    nesting: u8,
    tokens: &[Token],
) -> Result<(Expr, &[Token]), Failure<'_>>
    ensures { Gives result (condition_reading nesting (plain_tokens tokens.now)) }
{
    if nesting == 0 {
        if begins(Class::Mark(Mark::OpenBracket), tokens) {
            Err(Failure::TooDeep(tokens))
        } else {
            Err(Failure::Syntax(tokens))
        }
    } else {
        let (_, rest) = take(Class::Mark(Mark::OpenBracket), tokens)?;
        let (test, rest) = level(alloc, Level::Expr, nesting - 1, rest)?;
        let (_, rest) = take(Class::Mark(Mark::CloseBracket), rest)?;
        Ok((test, rest))
    }
}

/// Reads a change, a call, an operation or a print, where one is there.
#[tactic(auto, using(crate::proofs::Equations::maybe_simple_reads))]
fn maybe_simple(
    alloc: Global,
    nesting: u8,
    tokens: &[Token],
) -> Result<(Option<Boxed<Stmt>>, &[Token]), Failure<'_>>
    ensures { Gives result (maybe_simple_reading nesting (plain_tokens tokens.now)) }
{
    if begins(Class::Simple, tokens) {
        let (found, rest) = simple(alloc, nesting, tokens)?;
        Ok((Some(Boxed::new(alloc, found)?), rest))
    } else {
        Ok((None, tokens))
    }
}

/// Reads an expression, where one is there.
#[tactic(auto, using(crate::proofs::Equations::maybe_expr_reads))]
pub fn maybe_expr(
    alloc: Global,
    nesting: u8,
    tokens: &[Token],
) -> Result<(Option<Expr>, &[Token]), Failure<'_>>
    ensures { Gives result (maybe_expr_reading nesting (plain_tokens tokens.now)) }
{
    if begins(Class::Expr, tokens) {
        let (found, rest) = level(alloc, Level::Expr, nesting, tokens)?;
        Ok((Some(found), rest))
    } else {
        Ok((None, tokens))
    }
}

/// Reads the head of a `for`, in its brackets.
#[tactic(auto, using(crate::proofs::Equations::head_reads, crate::proofs::Equations::head_refused))]
pub fn head(alloc: Global, nesting: u8, tokens: &[Token]) -> Result<(Head, &[Token]), Failure<'_>>
    ensures { Gives result (head_reading nesting (plain_tokens tokens.now)) }
{
    if nesting == 0 {
        if begins(Class::Mark(Mark::OpenBracket), tokens) {
            Err(Failure::TooDeep(tokens))
        } else {
            Err(Failure::Syntax(tokens))
        }
    } else {
        let (_, rest) = take(Class::Mark(Mark::OpenBracket), tokens)?;
        let (first, rest) = maybe_simple(alloc, nesting - 1, rest)?;
        let (_, rest) = take(Class::Mark(Mark::Semicolon), rest)?;
        let (test, rest) = maybe_expr(alloc, nesting - 1, rest)?;
        let (_, rest) = take(Class::Mark(Mark::Semicolon), rest)?;
        let (step, rest) = maybe_simple(alloc, nesting - 1, rest)?;
        let (_, rest) = take(Class::Mark(Mark::CloseBracket), rest)?;
        Ok(((first, (test, step)), rest))
    }
}
