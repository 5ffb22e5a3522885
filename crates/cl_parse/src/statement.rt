ghost use Rattle.std.specs.Prelude.{◌≡◌};
ghost use Rattle.cl_ast.specs.Grammar as parts;
ghost use Rattle.cl_ast.specs.Views.{plain_kind};
ghost use Rattle.cl_parse_expr.specs.Steps.{plain_tokens, reading, Gives};
ghost use Rattle.cl_parse.specs.Readings.{is_continue, nested_reading, body_reading, otherwise_reading, empty_reading, line_reading, if_reading, while_reading, do_reading, for_reading, leave_reading, return_reading, inner_reading, inners_reading};

use crate::declare::variables;
use crate::head::{condition, head, maybe_expr};
use crate::simple::simple;
use cl_ast::{Block, Do, For, If, Mark, Return, Stmt, Token, TokenKind, While, Word};
use cl_parse_expr::{Class, Failure, begins, span, take};
use sqlite_items::{Boxed, Items};
use std::alloc::Global;

/// Reads statements in braces.
#[cycle(statements)]
#[tactic(auto, using(crate::proofs::Equations::block_reads, crate::proofs::Equations::block_refused))]
pub fn block(alloc: Global, nesting: u8, tokens: &[Token]) -> Result<(Block, &[Token]), Failure<'_>>
    ensures { Gives result (reading parts.block nesting (plain_tokens tokens.now)) }
{
    if nesting == 0 {
        if begins(Class::Mark(Mark::OpenBrace), tokens) {
            Err(Failure::TooDeep(tokens))
        } else {
            Err(Failure::Syntax(tokens))
        }
    } else {
        let (_, rest) = take(Class::Mark(Mark::OpenBrace), tokens)?;
        let (statements, rest) = inners(alloc, nesting - 1, rest)?;
        let (_, rest) = take(Class::Mark(Mark::CloseBrace), rest)?;
        let span = span(tokens, rest);
        Ok((Block { statements, span }, rest))
    }
}

/// Reads statements and declarations, as many as there are.
#[cycle(statements)]
#[tactic(auto, using(crate::proofs::Equations::inners_reads))]
fn inners(
    alloc: Global,
    nesting: u8,
    tokens: &[Token],
) -> Result<(Items<Stmt>, &[Token]), Failure<'_>>
    ensures { Gives result (inners_reading nesting (plain_tokens tokens.now)) }
{
    let mut found = Items::new(alloc);
    let mut rest = tokens;
    while begins(Class::Inner, rest) {
        let (next, behind) = inner(alloc, nesting, rest)?;
        found.push(next)?;
        rest = behind;
    }
    Ok((found, rest))
}

/// Reads a statement or a declaration.
#[cycle(statements)]
#[tactic(auto, using(crate::proofs::Equations::inner_reads))]
fn inner(alloc: Global, nesting: u8, tokens: &[Token]) -> Result<(Stmt, &[Token]), Failure<'_>>
    ensures { Gives result (inner_reading nesting (plain_tokens tokens.now)) }
{
    if begins(Class::Type, tokens) {
        let (found, rest) = variables(alloc, nesting, tokens)?;
        Ok((Stmt::Variables(found), rest))
    } else {
        statement(alloc, nesting, tokens)
    }
}

/// Reads a statement.
#[cycle(statements)]
#[tactic(auto, using(crate::proofs::Equations::statement_reads))]
fn statement(alloc: Global, nesting: u8, tokens: &[Token]) -> Result<(Stmt, &[Token]), Failure<'_>>
    ensures { Gives result (reading parts.statement nesting (plain_tokens tokens.now)) }
{
    if begins(Class::Mark(Mark::OpenBrace), tokens) {
        let (found, rest) = block(alloc, nesting, tokens)?;
        Ok((Stmt::Block(found), rest))
    } else {
        plain(alloc, nesting, tokens)
    }
}

/// Reads a statement that isn't a block.
#[cycle(statements)]
#[tactic(auto, using(crate::proofs::Equations::plain_reads))]
fn plain(alloc: Global, nesting: u8, tokens: &[Token]) -> Result<(Stmt, &[Token]), Failure<'_>>
    ensures { Gives result (reading parts.plain nesting (plain_tokens tokens.now)) }
{
    if begins(Class::Mark(Mark::Semicolon), tokens) {
        empty(nesting, tokens)
    } else if begins(Class::Simple, tokens) {
        line(alloc, nesting, tokens)
    } else if begins(Class::Word(Word::If), tokens) {
        if_else(alloc, nesting, tokens)
    } else if begins(Class::Word(Word::While), tokens) {
        while_loop(alloc, nesting, tokens)
    } else if begins(Class::Word(Word::Do), tokens) {
        do_loop(alloc, nesting, tokens)
    } else if begins(Class::Word(Word::For), tokens) {
        for_loop(alloc, nesting, tokens)
    } else if begins(Class::Leave, tokens) {
        leave(nesting, tokens)
    } else {
        give_back(alloc, nesting, tokens)
    }
}

/// Reads `;`.
#[tactic(auto, using(crate::proofs::Equations::empty_reads))]
fn empty(nesting: u8, tokens: &[Token]) -> Result<(Stmt, &[Token]), Failure<'_>>
    ensures { Gives result (empty_reading nesting (plain_tokens tokens.now)) }
{
    let (token, rest) = take(Class::Mark(Mark::Semicolon), tokens)?;
    Ok((Stmt::Empty(token.span), rest))
}

/// Reads a change, a call, an operation or a print with its `;`.
#[tactic(auto, using(crate::proofs::Equations::line_reads))]
fn line(alloc: Global, nesting: u8, tokens: &[Token]) -> Result<(Stmt, &[Token]), Failure<'_>>
    ensures { Gives result (line_reading nesting (plain_tokens tokens.now)) }
{
    let (found, rest) = simple(alloc, nesting, tokens)?;
    let (_, rest) = take(Class::Mark(Mark::Semicolon), rest)?;
    Ok((found, rest))
}

/// Reads an `if`, and the `else` that may follow it.
#[cycle(statements)]
#[tactic(auto, using(crate::proofs::Equations::if_reads))]
fn if_else(alloc: Global, nesting: u8, tokens: &[Token]) -> Result<(Stmt, &[Token]), Failure<'_>>
    ensures { Gives result (if_reading nesting (plain_tokens tokens.now)) }
{
    let (_, rest) = take(Class::Word(Word::If), tokens)?;
    let (test, rest) = condition(alloc, nesting, rest)?;
    let (yes, rest) = body(alloc, nesting, rest)?;
    let (no, rest) = otherwise(alloc, nesting, rest)?;
    let span = span(tokens, rest);
    Ok((
        Stmt::If(If {
            test,
            yes,
            no,
            span,
        }),
        rest,
    ))
}

/// Reads a statement behind a head: a block, or one that counts for nesting.
#[cycle(statements)]
#[tactic(auto, using(crate::proofs::Equations::body_reads))]
fn body(
    alloc: Global,
    nesting: u8,
    tokens: &[Token],
) -> Result<(Boxed<Stmt>, &[Token]), Failure<'_>>
    ensures { Gives result (body_reading nesting (plain_tokens tokens.now)) }
{
    if begins(Class::Mark(Mark::OpenBrace), tokens) {
        let (found, rest) = block(alloc, nesting, tokens)?;
        Ok((Boxed::new(alloc, Stmt::Block(found))?, rest))
    } else {
        let (found, rest) = nested(alloc, nesting, tokens)?;
        Ok((Boxed::new(alloc, found)?, rest))
    }
}

/// Reads a statement that isn't a block and counts for nesting.
#[cycle(statements)]
#[tactic(auto, using(crate::proofs::Equations::nested_reads, crate::proofs::Equations::nested_refused))]
fn nested(alloc: Global, nesting: u8, tokens: &[Token]) -> Result<(Stmt, &[Token]), Failure<'_>>
    ensures { Gives result (nested_reading nesting (plain_tokens tokens.now)) }
{
    if nesting == 0 {
        if begins(Class::Plain, tokens) {
            Err(Failure::TooDeep(tokens))
        } else {
            Err(Failure::Syntax(tokens))
        }
    } else {
        plain(alloc, nesting - 1, tokens)
    }
}

/// Reads `else` and the statement behind it, where it is there.
#[cycle(statements)]
#[tactic(auto, using(crate::proofs::Equations::otherwise_reads))]
fn otherwise(
    alloc: Global,
    nesting: u8,
    tokens: &[Token],
) -> Result<(Option<Boxed<Stmt>>, &[Token]), Failure<'_>>
    ensures { Gives result (otherwise_reading nesting (plain_tokens tokens.now)) }
{
    if begins(Class::Word(Word::Else), tokens) {
        let (_, rest) = take(Class::Word(Word::Else), tokens)?;
        let (found, rest) = body(alloc, nesting, rest)?;
        Ok((Some(found), rest))
    } else {
        Ok((None, tokens))
    }
}

/// Reads a `while`.
#[cycle(statements)]
#[tactic(auto, using(crate::proofs::Equations::while_reads))]
fn while_loop(alloc: Global, nesting: u8, tokens: &[Token]) -> Result<(Stmt, &[Token]), Failure<'_>>
    ensures { Gives result (while_reading nesting (plain_tokens tokens.now)) }
{
    let (_, rest) = take(Class::Word(Word::While), tokens)?;
    let (test, rest) = condition(alloc, nesting, rest)?;
    let (body, rest) = body(alloc, nesting, rest)?;
    let span = span(tokens, rest);
    Ok((Stmt::While(While { test, body, span }), rest))
}

/// Reads a `do`.
#[cycle(statements)]
#[tactic(auto, using(crate::proofs::Equations::do_reads))]
fn do_loop(alloc: Global, nesting: u8, tokens: &[Token]) -> Result<(Stmt, &[Token]), Failure<'_>>
    ensures { Gives result (do_reading nesting (plain_tokens tokens.now)) }
{
    let (_, rest) = take(Class::Word(Word::Do), tokens)?;
    let (body, rest) = body(alloc, nesting, rest)?;
    let (_, rest) = take(Class::Word(Word::While), rest)?;
    let (test, rest) = condition(alloc, nesting, rest)?;
    let (_, rest) = take(Class::Mark(Mark::Semicolon), rest)?;
    let span = span(tokens, rest);
    Ok((Stmt::Do(Do { body, test, span }), rest))
}

/// Reads a `for`.
#[cycle(statements)]
#[tactic(auto, using(crate::proofs::Equations::for_reads))]
fn for_loop(alloc: Global, nesting: u8, tokens: &[Token]) -> Result<(Stmt, &[Token]), Failure<'_>>
    ensures { Gives result (for_reading nesting (plain_tokens tokens.now)) }
{
    let (_, rest) = take(Class::Word(Word::For), tokens)?;
    let ((first, (test, step)), rest) = head(alloc, nesting, rest)?;
    let (body, rest) = body(alloc, nesting, rest)?;
    let span = span(tokens, rest);
    Ok((
        Stmt::For(For {
            first,
            test,
            step,
            body,
            span,
        }),
        rest,
    ))
}

/// Whether the word is `continue`.
fn is_continue(kind: &TokenKind) -> bool
    ensures { result ≡ is_continue (plain_kind kind.now) }
{
    matches!(kind, TokenKind::Word(Word::Continue))
}

/// Reads `break` or `continue`.
#[tactic(auto, using(crate::proofs::Equations::leave_reads, crate::proofs::Equations::leaves))]
fn leave(nesting: u8, tokens: &[Token]) -> Result<(Stmt, &[Token]), Failure<'_>>
    ensures { Gives result (leave_reading nesting (plain_tokens tokens.now)) }
{
    let (token, rest) = take(Class::Leave, tokens)?;
    let (_, rest) = take(Class::Mark(Mark::Semicolon), rest)?;
    let span = span(tokens, rest);
    if is_continue(&token.kind) {
        Ok((Stmt::Continue(span), rest))
    } else {
        Ok((Stmt::Break(span), rest))
    }
}

/// Reads a `return`.
#[tactic(auto, using(crate::proofs::Equations::return_reads))]
fn give_back(alloc: Global, nesting: u8, tokens: &[Token]) -> Result<(Stmt, &[Token]), Failure<'_>>
    ensures { Gives result (return_reading nesting (plain_tokens tokens.now)) }
{
    let (_, rest) = take(Class::Word(Word::Return), tokens)?;
    let (value, rest) = maybe_expr(alloc, nesting, rest)?;
    let (_, rest) = take(Class::Mark(Mark::Semicolon), rest)?;
    let span = span(tokens, rest);
    Ok((Stmt::Return(Return { value, span }), rest))
}
