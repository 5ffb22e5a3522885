ghost use Rattle.cl_ast.specs.Grammar as parts;
ghost use Rattle.cl_ast.specs.Views.{plain_token};
ghost use Rattle.cl_parse_expr.specs.Steps.{plain_tokens, reading, Gives};
ghost use Rattle.cl_parse.specs.Readings.{sign_reading, define_reading, behind_typed_reading, typed_reading, result_reading, untyped_reading, items_reading};

use crate::declare::{declared, more_declarators, type_name};
use crate::params::params;
use crate::statement::block;
use cl_ast::{Define, Function, Item, Mark, Token, TypeName, Variables, Word};
use cl_parse_expr::{Class, Failure, begins, literal, name, span, take};
use sqlite_items::Items;
use std::alloc::Global;

/// Reads a definition, variables that all functions share, or a function.
#[tactic(auto, using(crate::proofs::Equations::item_reads))]
fn item(alloc: Global, nesting: u8, tokens: &[Token]) -> Result<(Item, &[Token]), Failure<'_>>
    ensures { Gives result (reading parts.item nesting (plain_tokens tokens.now)) }
{
    if begins(Class::Define, tokens) {
        define(alloc, nesting, tokens)
    } else if begins(Class::Type, tokens) {
        typed(alloc, nesting, tokens)
    } else {
        untyped(alloc, nesting, tokens)
    }
}

/// Reads a minus, where one is there, and tells whether it was.
#[tactic(auto, using(crate::proofs::Equations::sign_reads))]
fn sign(nesting: u8, tokens: &[Token]) -> Result<(bool, &[Token]), Failure<'_>>
    ensures { Gives result (sign_reading nesting (plain_tokens tokens.now)) }
{
    if begins(Class::Mark(Mark::Minus), tokens) {
        let (_, rest) = take(Class::Mark(Mark::Minus), tokens)?;
        Ok((true, rest))
    } else {
        Ok((false, tokens))
    }
}

/// Reads a definition of a constant.
#[tactic(auto, using(crate::proofs::Equations::define_reads))]
fn define(alloc: Global, nesting: u8, tokens: &[Token]) -> Result<(Item, &[Token]), Failure<'_>>
    ensures { Gives result (define_reading nesting (plain_tokens tokens.now)) }
{
    let (_, rest) = take(Class::Define, tokens)?;
    let (token, rest) = take(Class::Name, rest)?;
    let name = name(alloc, token)?;
    let (is_negative, rest) = sign(nesting, rest)?;
    let (token, rest) = take(Class::Literal, rest)?;
    let literal = literal(token);
    let span = span(tokens, rest);
    Ok((
        Item::Define(Define {
            name,
            is_negative,
            literal,
            span,
        }),
        rest,
    ))
}

/// Reads variables that all functions share, or a function whose result type is written.
#[tactic(auto, using(crate::proofs::Equations::typed_reads))]
fn typed(alloc: Global, nesting: u8, tokens: &[Token]) -> Result<(Item, &[Token]), Failure<'_>>
    ensures { Gives result (typed_reading nesting (plain_tokens tokens.now)) }
{
    let (first, rest) = take(Class::Type, tokens)?;
    let (token, rest) = take(Class::Name, rest)?;
    behind_typed(alloc, nesting, tokens, first, token, rest)
}

/// Reads what stands behind the type and the name of an item that begins at `tokens`.
#[tactic(auto, using(crate::proofs::Equations::behind_typed_reads))]
fn behind_typed<'a>(
    alloc: Global,
    nesting: u8,
    tokens: &'a [Token],
    first: &'a Token,
    token: &'a Token,
    rest: &'a [Token],
) -> Result<(Item, &'a [Token]), Failure<'a>>
    ensures { Gives result (behind_typed_reading (plain_tokens tokens.now) (plain_token first.now) (plain_token token.now) nesting (plain_tokens rest.now)) }
{
    let type_name = type_name(&first.kind);
    if begins(Class::Mark(Mark::OpenBracket), rest) {
        let name = name(alloc, token)?;
        let (parameters, rest) = params(alloc, nesting, rest)?;
        let (body, rest) = block(alloc, nesting, rest)?;
        let result = Some(type_name);
        let span = span(tokens, rest);
        Ok((
            Item::Function(Function {
                result,
                name,
                parameters,
                body,
                span,
            }),
            rest,
        ))
    } else {
        let (first, rest) = declared(alloc, nesting, token, rest)?;
        let mut found = Items::new(alloc);
        found.push(first)?;
        let (declarators, rest) = more_declarators(alloc, nesting, found, rest)?;
        let (_, rest) = take(Class::Mark(Mark::Semicolon), rest)?;
        let span = span(tokens, rest);
        Ok((
            Item::Variables(Variables {
                type_name,
                declarators,
                span,
            }),
            rest,
        ))
    }
}

/// Reads `void` before a function's name, or nothing, which is `int`.
#[tactic(auto, using(crate::proofs::Equations::result_reads))]
fn result_type(nesting: u8, tokens: &[Token]) -> Result<(Option<TypeName>, &[Token]), Failure<'_>>
    ensures { Gives result (result_reading nesting (plain_tokens tokens.now)) }
{
    if begins(Class::Word(Word::Void), tokens) {
        let (_, rest) = take(Class::Word(Word::Void), tokens)?;
        Ok((None, rest))
    } else {
        Ok((Some(TypeName::Int), tokens))
    }
}

/// Reads a function that begins with `void` or with its name.
#[tactic(auto, using(crate::proofs::Equations::untyped_reads))]
fn untyped(alloc: Global, nesting: u8, tokens: &[Token]) -> Result<(Item, &[Token]), Failure<'_>>
    ensures { Gives result (untyped_reading nesting (plain_tokens tokens.now)) }
{
    let (result, rest) = result_type(nesting, tokens)?;
    let (token, rest) = take(Class::Name, rest)?;
    let name = name(alloc, token)?;
    let (parameters, rest) = params(alloc, nesting, rest)?;
    let (body, rest) = block(alloc, nesting, rest)?;
    let span = span(tokens, rest);
    Ok((
        Item::Function(Function {
            result,
            name,
            parameters,
            body,
            span,
        }),
        rest,
    ))
}

/// Reads items, as many as there are.
#[tactic(auto, using(crate::proofs::Equations::items_reads))]
pub fn items(
    alloc: Global,
    nesting: u8,
    tokens: &[Token],
) -> Result<(Items<Item>, &[Token]), Failure<'_>>
    ensures { Gives result (items_reading nesting (plain_tokens tokens.now)) }
{
    let mut found = Items::new(alloc);
    let mut rest = tokens;
    while begins(Class::Item, rest) {
        let (next, behind) = item(alloc, nesting, rest)?;
        found.push(next)?;
        rest = behind;
    }
    Ok((found, rest))
}
