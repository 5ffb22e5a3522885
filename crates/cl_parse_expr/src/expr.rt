ghost use Rattle.std.specs.Prelude.{◌≡◌, ◌++◌, IfOk, Ok};
ghost use Rattle.cl_rules.specs.Unroll.{onwards};
ghost use Rattle.cl_ast.specs.declared.tree.Prefix.{roll-Prefix};
ghost use Rattle.cl_ast.specs.Views.{plain_kind};
ghost use Rattle.cl_ast.specs.Grammar as parts;
ghost use Rattle.cl_ast.specs.Trees.{is_not, to_prefix};
ghost use Rattle.cl_parse_expr.specs.Steps.{plain_tokens, reading, Gives};
ghost use Rattle.cl_parse_expr.specs.Readings.{level_reading, operand_reading, link_reading, links_reading, argument_reading, arguments_reading, field_reading, fields_reading, listed_reading, prefixed_reading, bracketed_reading, named_reading};

use crate::Failure;
use crate::class::{Class, Level};
use crate::nodes::{chain, literal, name, operator, span, text, verb};
use crate::tokens::{begins, take};
use cl_ast::{
    Call, Expr, Field, Formal, Link, Mark, Operation, Place, Prefix, Span, Token, TokenKind,
};
use sqlite_items::{Boxed, Items};
use std::alloc::{AllocError, Global};

/// Reads an expression of a level.
#[cycle(expressions)]
#[tactic(auto, using(crate::proofs::Equations::level_reads))]
pub fn level(
    alloc: Global,
    level: Level,
    nesting: u8,
    tokens: &[Token],
) -> Result<(Expr, &[Token]), Failure<'_>>
    ensures { Gives result (level_reading level nesting (plain_tokens tokens.now)) }
{
    let (first, rest) = operand(alloc, level, nesting, tokens)?;
    let (others, rest) = links(alloc, level, nesting, rest)?;
    Ok((chain(alloc, span(tokens, rest), first, others)?, rest))
}

/// Reads an operand of a level.
#[cycle(expressions)]
fn operand(
    alloc: Global,
    level: Level,
    nesting: u8,
    tokens: &[Token],
) -> Result<(Expr, &[Token]), Failure<'_>>
    ensures { Gives result (operand_reading level nesting (plain_tokens tokens.now)) }
{
    match level {
        Level::Product => unary(alloc, nesting, tokens),
        Level::Sum => self::level(alloc, Level::Product, nesting, tokens),
        Level::Order => self::level(alloc, Level::Sum, nesting, tokens),
        Level::Equality => self::level(alloc, Level::Order, nesting, tokens),
        Level::Conjunction => self::level(alloc, Level::Equality, nesting, tokens),
        Level::Expr => self::level(alloc, Level::Conjunction, nesting, tokens),
    }
}

/// Reads an operator and the operand behind it.
#[cycle(expressions)]
#[tactic(auto, unfolding(crate::specs::Readings::link_reading))]
fn link(
    alloc: Global,
    level: Level,
    nesting: u8,
    tokens: &[Token],
) -> Result<(Link, &[Token]), Failure<'_>>
    ensures { Gives result (link_reading level nesting (plain_tokens tokens.now)) }
{
    let (token, rest) = take(Class::Operator(level), tokens)?;
    let (operand, rest) = operand(alloc, level, nesting, rest)?;
    let operator = operator(&token.kind);
    Ok((Link { operator, operand }, rest))
}

/// Reads operators with the operands behind them, as many as there are.
#[cycle(expressions)]
#[tactic(auto, using(crate::proofs::Equations::links_reads))]
fn links(
    alloc: Global,
    level: Level,
    nesting: u8,
    tokens: &[Token],
) -> Result<(Items<Link>, &[Token]), Failure<'_>>
    ensures { Gives result (links_reading level nesting (plain_tokens tokens.now)) }
{
    let mut found = Items::new(alloc);
    let mut rest = tokens;
    while begins(Class::Operator(level), rest) {
        let (link, behind) = link(alloc, level, nesting, rest)?;
        found.push(link)?;
        rest = behind;
    }
    Ok((found, rest))
}

/// Reads an operand: what a level of operators is made of.
#[cycle(expressions)]
#[tactic(auto, using(crate::proofs::Equations::unary_reads))]
fn unary(alloc: Global, nesting: u8, tokens: &[Token]) -> Result<(Expr, &[Token]), Failure<'_>>
    ensures { Gives result (reading parts.unary nesting (plain_tokens tokens.now)) }
{
    if begins(Class::Primary, tokens) {
        primary(alloc, nesting, tokens)
    } else {
        prefixed(alloc, nesting, tokens)
    }
}

/// Whether the mark is `!`.
fn is_not(kind: &TokenKind) -> bool
    ensures { result ≡ is_not (plain_kind kind.now) }
{
    matches!(kind, TokenKind::Mark(Mark::Not))
}

/// The expression that a prefix operator makes of its operand.
fn prefix(alloc: Global, is_not: bool, operand: Expr, span: Span) -> Result<Expr, AllocError>
    ensures { IfOk result (λ found. found ≡ to_prefix is_not (roll-Prefix (record { operand = operand; span = span }))) }
{
    let operand = Boxed::new(alloc, operand)?;
    let inner = Prefix { operand, span };
    if is_not {
        Ok(Expr::Not(inner))
    } else {
        Ok(Expr::Negate(inner))
    }
}

/// Reads a prefix operator and its operand.
#[cycle(expressions)]
#[tactic(auto, using(crate::proofs::Equations::prefixed_reads, crate::proofs::Equations::prefixed_refused))]
fn prefixed(alloc: Global, nesting: u8, tokens: &[Token]) -> Result<(Expr, &[Token]), Failure<'_>>
    ensures { Gives result (prefixed_reading nesting (plain_tokens tokens.now)) }
{
    if nesting == 0 {
        if begins(Class::Prefix, tokens) {
            Err(Failure::TooDeep(tokens))
        } else {
            Err(Failure::Syntax(tokens))
        }
    } else {
        let (token, rest) = take(Class::Prefix, tokens)?;
        let (operand, rest) = unary(alloc, nesting - 1, rest)?;
        Ok((
            prefix(alloc, is_not(&token.kind), operand, span(tokens, rest))?,
            rest,
        ))
    }
}

/// Reads a literal, a name with what stands behind it, a predicate, or an expression in brackets.
#[cycle(expressions)]
#[tactic(auto, using(crate::proofs::Equations::primary_reads))]
fn primary(alloc: Global, nesting: u8, tokens: &[Token]) -> Result<(Expr, &[Token]), Failure<'_>>
    ensures { Gives result (reading parts.primary nesting (plain_tokens tokens.now)) }
{
    if begins(Class::Literal, tokens) {
        let (token, rest) = take(Class::Literal, tokens)?;
        Ok((Expr::Literal(literal(token)), rest))
    } else if begins(Class::Name, tokens) {
        named(alloc, nesting, tokens)
    } else if begins(Class::Predicate, tokens) {
        let (token, rest) = take(Class::Predicate, tokens)?;
        let (fields, rest) = fields(alloc, nesting, rest)?;
        let verb = verb(&token.kind);
        let span = span(tokens, rest);
        Ok((Expr::Operation(Operation { verb, fields, span }), rest))
    } else {
        bracketed(alloc, nesting, tokens)
    }
}

/// Reads an expression in brackets.
#[cycle(expressions)]
#[tactic(auto, using(crate::proofs::Equations::bracketed_reads, crate::proofs::Equations::bracketed_refused))]
fn bracketed(alloc: Global, nesting: u8, tokens: &[Token]) -> Result<(Expr, &[Token]), Failure<'_>>
    ensures { Gives result (bracketed_reading nesting (plain_tokens tokens.now)) }
{
    if nesting == 0 {
        if begins(Class::Mark(Mark::OpenBracket), tokens) {
            Err(Failure::TooDeep(tokens))
        } else {
            Err(Failure::Syntax(tokens))
        }
    } else {
        let (_, rest) = take(Class::Mark(Mark::OpenBracket), tokens)?;
        let (inner, rest) = level(alloc, Level::Expr, nesting - 1, rest)?;
        let (_, rest) = take(Class::Mark(Mark::CloseBracket), rest)?;
        Ok((inner, rest))
    }
}

/// Reads a name with what stands behind it: a call, an element or a variable.
#[cycle(expressions)]
#[tactic(auto, using(crate::proofs::Equations::named_reads))]
fn named(alloc: Global, nesting: u8, tokens: &[Token]) -> Result<(Expr, &[Token]), Failure<'_>>
    ensures { Gives result (named_reading nesting (plain_tokens tokens.now)) }
{
    let (token, rest) = take(Class::Name, tokens)?;
    let name = name(alloc, token)?;
    if begins(Class::Mark(Mark::OpenBracket), rest) {
        let (arguments, rest) = arguments(alloc, nesting, rest)?;
        let span = span(tokens, rest);
        Ok((
            Expr::Call(Call {
                name,
                arguments,
                span,
            }),
            rest,
        ))
    } else if begins(Class::Mark(Mark::OpenSquare), rest) {
        let ((index, _), rest) = index(alloc, nesting, rest)?;
        let index = Some(Boxed::new(alloc, index)?);
        let span = span(tokens, rest);
        Ok((Expr::Place(Place { name, index, span }), rest))
    } else {
        let span = span(tokens, rest);
        Ok((
            Expr::Place(Place {
                name,
                index: None,
                span,
            }),
            rest,
        ))
    }
}

/// Reads a variable or an element.
#[cycle(expressions)]
#[tactic(auto, using(crate::proofs::Equations::place_reads))]
pub fn place(alloc: Global, nesting: u8, tokens: &[Token]) -> Result<(Place, &[Token]), Failure<'_>>
    ensures { Gives result (reading parts.place nesting (plain_tokens tokens.now)) }
{
    let (token, rest) = take(Class::Name, tokens)?;
    let name = name(alloc, token)?;
    if begins(Class::Mark(Mark::OpenSquare), rest) {
        let ((index, _), rest) = index(alloc, nesting, rest)?;
        let index = Some(Boxed::new(alloc, index)?);
        let span = span(tokens, rest);
        Ok((Place { name, index, span }, rest))
    } else {
        let span = span(tokens, rest);
        Ok((
            Place {
                name,
                index: None,
                span,
            },
            rest,
        ))
    }
}

/// Reads an index in its brackets, and gives the place after them too.
#[cycle(expressions)]
#[tactic(auto, using(crate::proofs::Equations::index_reads, crate::proofs::Equations::index_refused))]
pub fn index(
    alloc: Global,
    nesting: u8,
    tokens: &[Token],
) -> Result<((Expr, u32), &[Token]), Failure<'_>>
    ensures { Gives result (reading parts.index nesting (plain_tokens tokens.now)) }
{
    if nesting == 0 {
        if begins(Class::Mark(Mark::OpenSquare), tokens) {
            Err(Failure::TooDeep(tokens))
        } else {
            Err(Failure::Syntax(tokens))
        }
    } else {
        let (_, rest) = take(Class::Mark(Mark::OpenSquare), tokens)?;
        let (inner, rest) = level(alloc, Level::Expr, nesting - 1, rest)?;
        let (_, rest) = take(Class::Mark(Mark::CloseSquare), rest)?;
        Ok(((inner, span(tokens, rest).end), rest))
    }
}

/// Reads the arguments of a call, in their brackets.
#[cycle(expressions)]
#[tactic(auto, using(crate::proofs::Equations::call_reads, crate::proofs::Equations::call_refused))]
pub fn arguments(
    alloc: Global,
    nesting: u8,
    tokens: &[Token],
) -> Result<(Items<Expr>, &[Token]), Failure<'_>>
    ensures { Gives result (reading parts.arguments nesting (plain_tokens tokens.now)) }
{
    if nesting == 0 {
        if begins(Class::Mark(Mark::OpenBracket), tokens) {
            Err(Failure::TooDeep(tokens))
        } else {
            Err(Failure::Syntax(tokens))
        }
    } else {
        let (_, rest) = take(Class::Mark(Mark::OpenBracket), tokens)?;
        let (found, rest) = listed(alloc, nesting - 1, rest)?;
        let (_, rest) = take(Class::Mark(Mark::CloseBracket), rest)?;
        Ok((found, rest))
    }
}

/// Reads expressions with commas between them, or none.
#[cycle(expressions)]
#[tactic(auto, unfolding(crate::specs::Readings::listed_reading))]
fn listed(
    alloc: Global,
    nesting: u8,
    tokens: &[Token],
) -> Result<(Items<Expr>, &[Token]), Failure<'_>>
    ensures { Gives result (listed_reading nesting (plain_tokens tokens.now)) }
{
    let mut found = Items::new(alloc);
    if begins(Class::Expr, tokens) {
        let (first, rest) = level(alloc, Level::Expr, nesting, tokens)?;
        found.push(first)?;
        more_arguments(alloc, nesting, found, rest)
    } else {
        Ok((found, tokens))
    }
}

/// Reads a comma and an expression.
#[cycle(expressions)]
#[tactic(auto, unfolding(crate::specs::Readings::argument_reading))]
fn argument(alloc: Global, nesting: u8, tokens: &[Token]) -> Result<(Expr, &[Token]), Failure<'_>>
    ensures { Gives result (argument_reading nesting (plain_tokens tokens.now)) }
{
    let (_, rest) = take(Class::Mark(Mark::Comma), tokens)?;
    level(alloc, Level::Expr, nesting, rest)
}

/// Reads expressions behind commas, as many as there are, and puts them behind those found.
#[cycle(expressions)]
#[tactic(auto, using(crate::proofs::Equations::arguments_reads))]
fn more_arguments(
    alloc: Global,
    nesting: u8,
    found: Items<Expr>,
    tokens: &[Token],
) -> Result<(Items<Expr>, &[Token]), Failure<'_>>
    ensures { Gives result (onwards (arguments_reading nesting (plain_tokens tokens.now)) (λ xs us. Ok (found ++ xs, us))) }
{
    let mut all = found;
    let mut rest = tokens;
    while begins(Class::Mark(Mark::Comma), rest) {
        let (next, behind) = argument(alloc, nesting, rest)?;
        all.push(next)?;
        rest = behind;
    }
    Ok((all, rest))
}

/// Reads the fields of an operation, in their brackets.
#[cycle(expressions)]
#[tactic(auto, using(crate::proofs::Equations::operation_reads, crate::proofs::Equations::operation_refused))]
pub fn fields(
    alloc: Global,
    nesting: u8,
    tokens: &[Token],
) -> Result<(Items<Field>, &[Token]), Failure<'_>>
    ensures { Gives result (reading parts.fields nesting (plain_tokens tokens.now)) }
{
    if nesting == 0 {
        if begins(Class::Mark(Mark::OpenBracket), tokens) {
            Err(Failure::TooDeep(tokens))
        } else {
            Err(Failure::Syntax(tokens))
        }
    } else {
        let (_, rest) = take(Class::Mark(Mark::OpenBracket), tokens)?;
        let (first, rest) = field(alloc, nesting - 1, rest)?;
        let mut found = Items::new(alloc);
        found.push(first)?;
        let (found, rest) = more_fields(alloc, nesting - 1, found, rest)?;
        let (_, rest) = take(Class::Mark(Mark::CloseBracket), rest)?;
        Ok((found, rest))
    }
}

/// Reads a field.
#[cycle(expressions)]
#[tactic(auto, using(crate::proofs::Equations::field_reads))]
fn field(alloc: Global, nesting: u8, tokens: &[Token]) -> Result<(Field, &[Token]), Failure<'_>>
    ensures { Gives result (reading parts.field nesting (plain_tokens tokens.now)) }
{
    if begins(Class::Text, tokens) {
        let (token, rest) = take(Class::Text, tokens)?;
        Ok((Field::Text(text(alloc, token)?), rest))
    } else if begins(Class::Mark(Mark::Question), tokens) {
        let (_, rest) = take(Class::Mark(Mark::Question), tokens)?;
        let (target, rest) = place(alloc, nesting, rest)?;
        let span = span(tokens, rest);
        Ok((Field::Formal(Formal { target, span }), rest))
    } else {
        let (inner, rest) = level(alloc, Level::Expr, nesting, tokens)?;
        Ok((Field::Plain(inner), rest))
    }
}

/// Reads a comma and a field.
#[cycle(expressions)]
#[tactic(auto, unfolding(crate::specs::Readings::field_reading))]
fn next_field(
    alloc: Global,
    nesting: u8,
    tokens: &[Token],
) -> Result<(Field, &[Token]), Failure<'_>>
    ensures { Gives result (field_reading nesting (plain_tokens tokens.now)) }
{
    let (_, rest) = take(Class::Mark(Mark::Comma), tokens)?;
    field(alloc, nesting, rest)
}

/// Reads fields behind commas, as many as there are, and puts them behind those found.
#[cycle(expressions)]
#[tactic(auto, using(crate::proofs::Equations::fields_reads))]
fn more_fields(
    alloc: Global,
    nesting: u8,
    found: Items<Field>,
    tokens: &[Token],
) -> Result<(Items<Field>, &[Token]), Failure<'_>>
    ensures { Gives result (onwards (fields_reading nesting (plain_tokens tokens.now)) (λ xs us. Ok (found ++ xs, us))) }
{
    let mut all = found;
    let mut rest = tokens;
    while begins(Class::Mark(Mark::Comma), rest) {
        let (next, behind) = next_field(alloc, nesting, rest)?;
        all.push(next)?;
        rest = behind;
    }
    Ok((all, rest))
}
