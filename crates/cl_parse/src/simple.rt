ghost use Rattle.std.specs.Prelude.{◌≡◌};
ghost use Rattle.cl_ast.specs.Grammar as parts;
ghost use Rattle.cl_ast.specs.Trees.{is_decrement, kind_change, to_step};
ghost use Rattle.cl_ast.specs.Views.{plain_token, plain_kind};
ghost use Rattle.cl_parse_expr.specs.Steps.{plain_tokens, reading, Gives};
ghost use Rattle.cl_parse.specs.Readings.{change_reading, changed_reading, behind_name_reading, started_reading, stepped_reading, operation_reading, print_reading, formatted_reading};

use crate::spanned::more_spanned;
use cl_ast::{
    Assign, Call, Change, Expr, Mark, Operation, Place, Print, Span, Spanned, Stmt, Text, Token,
    TokenKind, Word,
};
use cl_parse_expr::{
    Class, Failure, Level, arguments, begins, fields, index, level, name, place, span, take, text,
    verb,
};
use sqlite_items::{Boxed, Items};
use std::alloc::Global;

/// Reads a change, a call, an operation or a print.
#[tactic(auto, using(crate::proofs::Equations::simple_reads))]
pub fn simple(alloc: Global, nesting: u8, tokens: &[Token]) -> Result<(Stmt, &[Token]), Failure<'_>>
    ensures { Gives result (reading parts.simple nesting (plain_tokens tokens.now)) }
{
    if begins(Class::Name, tokens) {
        started(alloc, nesting, tokens)
    } else if begins(Class::Step, tokens) {
        stepped(alloc, nesting, tokens)
    } else if begins(Class::Operation, tokens) {
        operation(alloc, nesting, tokens)
    } else {
        print(alloc, nesting, tokens)
    }
}

/// Reads a call or a change that begins with a name.
#[tactic(auto, using(crate::proofs::Equations::started_reads))]
fn started(alloc: Global, nesting: u8, tokens: &[Token]) -> Result<(Stmt, &[Token]), Failure<'_>>
    ensures { Gives result (started_reading nesting (plain_tokens tokens.now)) }
{
    let (token, rest) = take(Class::Name, tokens)?;
    behind_name(alloc, nesting, tokens, token, rest)
}

/// Reads what stands behind the name of a statement that begins at `tokens`.
#[tactic(auto, using(crate::proofs::Equations::behind_name_reads))]
fn behind_name<'a>(
    alloc: Global,
    nesting: u8,
    tokens: &'a [Token],
    token: &'a Token,
    rest: &'a [Token],
) -> Result<(Stmt, &'a [Token]), Failure<'a>>
    ensures { Gives result (behind_name_reading (plain_tokens tokens.now) (plain_token token.now) nesting (plain_tokens rest.now)) }
{
    let name = name(alloc, token)?;
    if begins(Class::Mark(Mark::OpenBracket), rest) {
        let (arguments, rest) = arguments(alloc, nesting, rest)?;
        let span = span(tokens, rest);
        Ok((
            Stmt::Call(Call {
                name,
                arguments,
                span,
            }),
            rest,
        ))
    } else if begins(Class::Mark(Mark::OpenSquare), rest) {
        let ((index, end), rest) = index(alloc, nesting, rest)?;
        let index = Some(Boxed::new(alloc, index)?);
        let span = Span {
            start: token.span.start,
            end,
        };
        changed(alloc, nesting, tokens, Place { name, index, span }, rest)
    } else {
        let index = None;
        let span = token.span;
        changed(alloc, nesting, tokens, Place { name, index, span }, rest)
    }
}

/// Reads how the place is changed with which a statement begins at `tokens`.
#[tactic(auto, unfolding(crate::specs::Readings::changed_reading))]
fn changed<'a>(
    alloc: Global,
    nesting: u8,
    tokens: &'a [Token],
    place: Place,
    rest: &'a [Token],
) -> Result<(Stmt, &'a [Token]), Failure<'a>>
    ensures { Gives result (changed_reading (plain_tokens tokens.now) place nesting (plain_tokens rest.now)) }
{
    let (change, rest) = change(alloc, nesting, rest)?;
    let span = span(tokens, rest);
    Ok((
        Stmt::Assign(Assign {
            place,
            change,
            span,
        }),
        rest,
    ))
}

/// Reads a mark that changes a place, with the value where it takes one.
#[tactic(auto, using(crate::proofs::Equations::change_reads))]
fn change(alloc: Global, nesting: u8, tokens: &[Token]) -> Result<(Change, &[Token]), Failure<'_>>
    ensures { Gives result (change_reading nesting (plain_tokens tokens.now)) }
{
    if begins(Class::Change, tokens) {
        let (token, rest) = take(Class::Change, tokens)?;
        let (value, rest) = level(alloc, Level::Expr, nesting, rest)?;
        Ok((change_by(&token.kind, value), rest))
    } else {
        let (token, rest) = take(Class::Step, tokens)?;
        Ok((step(&token.kind), rest))
    }
}

/// The change that the mark makes with the value.
fn change_by(kind: &TokenKind, value: Expr) -> Change
    ensures { result ≡ kind_change (plain_kind kind.now) value }
{
    match kind {
        TokenKind::Mark(Mark::PlusAssign) => Change::Add(value),
        TokenKind::Mark(Mark::MinusAssign) => Change::Subtract(value),
        TokenKind::Mark(Mark::TimesAssign) => Change::Multiply(value),
        _ => Change::Set(value),
    }
}

/// The change that `++` or `--` is.
fn step(kind: &TokenKind) -> Change
    ensures { result ≡ to_step (is_decrement (plain_kind kind.now)) }
{
    match kind {
        TokenKind::Mark(Mark::Decrement) => Change::Decrement,
        _ => Change::Increment,
    }
}

/// Reads `++` or `--` and a place.
#[tactic(auto, using(crate::proofs::Equations::stepped_reads))]
fn stepped(alloc: Global, nesting: u8, tokens: &[Token]) -> Result<(Stmt, &[Token]), Failure<'_>>
    ensures { Gives result (stepped_reading nesting (plain_tokens tokens.now)) }
{
    let (token, rest) = take(Class::Step, tokens)?;
    let (place, rest) = place(alloc, nesting, rest)?;
    let change = step(&token.kind);
    let span = span(tokens, rest);
    Ok((
        Stmt::Assign(Assign {
            place,
            change,
            span,
        }),
        rest,
    ))
}

/// Reads an operation.
#[tactic(auto, using(crate::proofs::Equations::operation_reads))]
fn operation(alloc: Global, nesting: u8, tokens: &[Token]) -> Result<(Stmt, &[Token]), Failure<'_>>
    ensures { Gives result (operation_reading nesting (plain_tokens tokens.now)) }
{
    let (token, rest) = take(Class::Operation, tokens)?;
    let (fields, rest) = fields(alloc, nesting, rest)?;
    let verb = verb(&token.kind);
    let span = span(tokens, rest);
    Ok((Stmt::Operation(Operation { verb, fields, span }), rest))
}

/// Reads a print.
#[tactic(auto, using(crate::proofs::Equations::print_reads))]
fn print(alloc: Global, nesting: u8, tokens: &[Token]) -> Result<(Stmt, &[Token]), Failure<'_>>
    ensures { Gives result (print_reading nesting (plain_tokens tokens.now)) }
{
    let (_, rest) = take(Class::Word(Word::Printf), tokens)?;
    let ((format, arguments), rest) = formatted(alloc, nesting, rest)?;
    let span = span(tokens, rest);
    Ok((
        Stmt::Print(Print {
            format,
            arguments,
            span,
        }),
        rest,
    ))
}

/// Reads a format and arguments, in their brackets.
#[tactic(auto, using(crate::proofs::Equations::formatted_reads, crate::proofs::Equations::formatted_refused))]
fn formatted(
    alloc: Global,
    nesting: u8,
    tokens: &[Token],
) -> Result<((Text, Items<Spanned>), &[Token]), Failure<'_>>
    ensures { Gives result (formatted_reading nesting (plain_tokens tokens.now)) }
{
    if nesting == 0 {
        if begins(Class::Mark(Mark::OpenBracket), tokens) {
            Err(Failure::TooDeep(tokens))
        } else {
            Err(Failure::Syntax(tokens))
        }
    } else {
        let (_, rest) = take(Class::Mark(Mark::OpenBracket), tokens)?;
        let (token, rest) = take(Class::Text, rest)?;
        let format = text(alloc, token)?;
        let (arguments, rest) = more_spanned(alloc, nesting - 1, Items::new(alloc), rest)?;
        let (_, rest) = take(Class::Mark(Mark::CloseBracket), rest)?;
        Ok(((format, arguments), rest))
    }
}
