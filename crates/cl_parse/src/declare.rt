ghost use Rattle.std.specs.Prelude.{◌≡◌, ◌++◌, Ok, IfOk};
ghost use Rattle.cl_rules.specs.Unroll.{onwards};
ghost use Rattle.cl_ast.specs.Grammar as parts;
ghost use Rattle.cl_ast.specs.Trees.{kind_size, kind_type};
ghost use Rattle.cl_ast.specs.Views.{plain_token, plain_kind};
ghost use Rattle.cl_parse_expr.specs.Steps.{plain_tokens, reading, Gives};
ghost use Rattle.cl_parse.specs.Readings.{sized_reading, valued_reading, declared_reading, next_declarator_reading, declarators_reading};

use crate::spanned::spanned;
use cl_ast::{Declarator, Form, Mark, Size, Span, Token, TokenKind, TypeName, Variables, Word};
use cl_parse_expr::{Class, Failure, begins, literal, name, span, take};
use sqlite_items::Items;
use std::alloc::{AllocError, Global};

/// The type that the word names.
pub fn type_name(kind: &TokenKind) -> TypeName
    ensures { result ≡ kind_type (plain_kind kind.now) }
{
    match kind {
        TokenKind::Word(Word::Long) => TypeName::Long,
        TokenKind::Word(Word::Char) => TypeName::Char,
        _ => TypeName::Int,
    }
}

/// The size that the token is.
fn size(alloc: Global, token: &Token) -> Result<Size, AllocError>
    ensures { IfOk result (λ found. found ≡ kind_size (plain_token token.now) (plain_kind token.now.kind)) }
{
    match &token.kind {
        TokenKind::Name(_) => Ok(Size::Name(name(alloc, token)?)),
        _ => Ok(Size::Number(literal(token))),
    }
}

/// Reads a size or an initial value, and gives the place after it too.
#[tactic(auto, using(crate::proofs::Equations::given_reads))]
fn given(
    alloc: Global,
    nesting: u8,
    tokens: &[Token],
) -> Result<((Form, u32), &[Token]), Failure<'_>>
    ensures { Gives result (reading parts.given nesting (plain_tokens tokens.now)) }
{
    if begins(Class::Mark(Mark::OpenSquare), tokens) {
        sized(alloc, nesting, tokens)
    } else {
        valued(alloc, nesting, tokens)
    }
}

/// Reads a size in its brackets.
#[tactic(auto, using(crate::proofs::Equations::sized_reads, crate::proofs::Equations::sized_refused))]
fn sized(
    alloc: Global,
    nesting: u8,
    tokens: &[Token],
) -> Result<((Form, u32), &[Token]), Failure<'_>>
    ensures { Gives result (sized_reading nesting (plain_tokens tokens.now)) }
{
    if nesting == 0 {
        if begins(Class::Mark(Mark::OpenSquare), tokens) {
            Err(Failure::TooDeep(tokens))
        } else {
            Err(Failure::Syntax(tokens))
        }
    } else {
        let (_, rest) = take(Class::Mark(Mark::OpenSquare), tokens)?;
        let (token, rest) = take(Class::Size, rest)?;
        let (_, rest) = take(Class::Mark(Mark::CloseSquare), rest)?;
        let form = Form::Array(size(alloc, token)?);
        Ok(((form, span(tokens, rest).end), rest))
    }
}

/// Reads an initial value.
#[tactic(auto, using(crate::proofs::Equations::valued_reads))]
fn valued(
    alloc: Global,
    nesting: u8,
    tokens: &[Token],
) -> Result<((Form, u32), &[Token]), Failure<'_>>
    ensures { Gives result (valued_reading nesting (plain_tokens tokens.now)) }
{
    let (_, rest) = take(Class::Mark(Mark::Assign), tokens)?;
    let (value, rest) = spanned(alloc, nesting, rest)?;
    Ok(((Form::Value(value), span(tokens, rest).end), rest))
}

/// Reads what is said of a variable behind its name.
#[tactic(auto, using(crate::proofs::Equations::declared_reads))]
pub fn declared<'a>(
    alloc: Global,
    nesting: u8,
    token: &'a Token,
    rest: &'a [Token],
) -> Result<(Declarator, &'a [Token]), Failure<'a>>
    ensures { Gives result (declared_reading (plain_token token.now) nesting (plain_tokens rest.now)) }
{
    let name = name(alloc, token)?;
    if begins(Class::Given, rest) {
        let ((form, end), rest) = given(alloc, nesting, rest)?;
        let span = Span {
            start: token.span.start,
            end,
        };
        Ok((Declarator { name, form, span }, rest))
    } else {
        let form = Form::Bare;
        let span = token.span;
        Ok((Declarator { name, form, span }, rest))
    }
}

/// Reads a variable that is declared.
#[tactic(auto, using(crate::proofs::Equations::declarator_reads))]
fn declarator(
    alloc: Global,
    nesting: u8,
    tokens: &[Token],
) -> Result<(Declarator, &[Token]), Failure<'_>>
    ensures { Gives result (reading parts.declarator nesting (plain_tokens tokens.now)) }
{
    let (token, rest) = take(Class::Name, tokens)?;
    declared(alloc, nesting, token, rest)
}

/// Reads a comma and a variable.
#[tactic(auto, using(crate::proofs::Equations::next_declarator_reads))]
fn next_declarator(
    alloc: Global,
    nesting: u8,
    tokens: &[Token],
) -> Result<(Declarator, &[Token]), Failure<'_>>
    ensures { Gives result (next_declarator_reading nesting (plain_tokens tokens.now)) }
{
    let (_, rest) = take(Class::Mark(Mark::Comma), tokens)?;
    declarator(alloc, nesting, rest)
}

/// Reads variables behind commas, as many as there are, and puts them behind those found.
#[tactic(auto, using(crate::proofs::Equations::declarators_reads))]
pub fn more_declarators(
    alloc: Global,
    nesting: u8,
    found: Items<Declarator>,
    tokens: &[Token],
) -> Result<(Items<Declarator>, &[Token]), Failure<'_>>
    ensures { Gives result (onwards (declarators_reading nesting (plain_tokens tokens.now)) (λ xs us. Ok (found ++ xs, us))) }
{
    let mut all = found;
    let mut rest = tokens;
    while begins(Class::Mark(Mark::Comma), rest) {
        let (next, behind) = next_declarator(alloc, nesting, rest)?;
        all.push(next)?;
        rest = behind;
    }
    Ok((all, rest))
}

/// Reads a declaration of variables.
#[tactic(auto, using(crate::proofs::Equations::variables_reads))]
pub fn variables(
    alloc: Global,
    nesting: u8,
    tokens: &[Token],
) -> Result<(Variables, &[Token]), Failure<'_>>
    ensures { Gives result (reading parts.variables nesting (plain_tokens tokens.now)) }
{
    let (token, rest) = take(Class::Type, tokens)?;
    let (first, rest) = declarator(alloc, nesting, rest)?;
    let mut found = Items::new(alloc);
    found.push(first)?;
    let (declarators, rest) = more_declarators(alloc, nesting, found, rest)?;
    let (_, rest) = take(Class::Mark(Mark::Semicolon), rest)?;
    let type_name = type_name(&token.kind);
    let span = span(tokens, rest);
    Ok((
        Variables {
            type_name,
            declarators,
            span,
        },
        rest,
    ))
}
