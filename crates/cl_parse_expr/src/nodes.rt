ghost use Rattle.std.specs.Prelude.{◌≡◌, IfOk};
ghost use Rattle.cl_rules.specs.Values.{before_rest};
ghost use Rattle.cl_ast.specs.Views.{plain_token, plain_kind};
ghost use Rattle.cl_ast.specs.Trees.{span_of, token_bytes, to_name, to_text, to_literal, kind_constant, kind_verb, kind_operator, to_chain};
ghost use Rattle.cl_parse_expr.specs.Steps.{plain_tokens};

use cl_ast::{
    Chain, Constant, Expr, Link, Literal, Mark, Name, Operator, Span, Text, Token, TokenKind, Verb,
    Word,
};
use sqlite_items::{Boxed, Items};
use std::alloc::{AllocError, Global};

/// The place of the tokens that were read, from the first to the last.
pub fn span(tokens: &[Token], rest: &[Token]) -> Span
    ensures { result ≡ span_of (before_rest (plain_tokens tokens.now) (plain_tokens rest.now)) }
{
    span_of(&tokens[..tokens.len().saturating_sub(rest.len())])
}

/// The place of tokens.
fn span_of(tokens: &[Token]) -> Span
    ensures { result ≡ span_of (plain_tokens tokens.now) }
{
    match tokens {
        [] => Span { start: 0, end: 0 },
        [first, ..] => Span {
            start: first.span.start,
            end: tokens[tokens.len() - 1].span.end,
        },
    }
}

/// The bytes of a name or of a string; none of another token.
fn bytes(alloc: Global, token: &Token) -> Result<Items<u8>, AllocError>
    ensures { IfOk result (λ found. found ≡ token_bytes (plain_token token.now)) }
{
    match &token.kind {
        TokenKind::Name(bytes) => Items::from_slice(alloc, bytes.as_slice()),
        TokenKind::Str(bytes) => Items::from_slice(alloc, bytes.as_slice()),
        _ => Ok(Items::new(alloc)),
    }
}

/// The name that the token is.
pub fn name(alloc: Global, token: &Token) -> Result<Name, AllocError>
    ensures { IfOk result (λ found. found ≡ to_name (plain_token token.now)) }
{
    Ok(Name {
        bytes: bytes(alloc, token)?,
        span: token.span,
    })
}

/// The string that the token is.
pub fn text(alloc: Global, token: &Token) -> Result<Text, AllocError>
    ensures { IfOk result (λ found. found ≡ to_text (plain_token token.now)) }
{
    Ok(Text {
        bytes: bytes(alloc, token)?,
        span: token.span,
    })
}

/// What the token means as a literal.
fn constant(kind: &TokenKind) -> Constant
    ensures { result ≡ kind_constant (plain_kind kind.now) }
{
    match kind {
        TokenKind::Int(value) => Constant::Int(*value),
        TokenKind::Long(value) => Constant::Long(*value),
        TokenKind::Character(byte) => Constant::Character(*byte),
        _ => Constant::Character(0),
    }
}

/// The literal that the token is.
pub fn literal(token: &Token) -> Literal
    ensures { result ≡ to_literal (plain_token token.now) }
{
    Literal {
        value: constant(&token.kind),
        span: token.span,
    }
}

/// The operation that the word names.
pub fn verb(kind: &TokenKind) -> Verb
    ensures { result ≡ kind_verb (plain_kind kind.now) }
{
    match kind {
        TokenKind::Word(Word::In) => Verb::In,
        TokenKind::Word(Word::Rd) => Verb::Rd,
        TokenKind::Word(Word::Inp) => Verb::Inp,
        TokenKind::Word(Word::Rdp) => Verb::Rdp,
        TokenKind::Word(Word::Eval) => Verb::Eval,
        _ => Verb::Out,
    }
}

/// The operator that the mark is.
pub fn operator(kind: &TokenKind) -> Operator
    ensures { result ≡ kind_operator (plain_kind kind.now) }
{
    match kind {
        TokenKind::Mark(Mark::And) => Operator::And,
        TokenKind::Mark(Mark::Equal) => Operator::Equal,
        TokenKind::Mark(Mark::NotEqual) => Operator::NotEqual,
        TokenKind::Mark(Mark::Less) => Operator::Less,
        TokenKind::Mark(Mark::LessEqual) => Operator::LessEqual,
        TokenKind::Mark(Mark::Greater) => Operator::Greater,
        TokenKind::Mark(Mark::GreaterEqual) => Operator::GreaterEqual,
        TokenKind::Mark(Mark::Plus) => Operator::Add,
        TokenKind::Mark(Mark::Minus) => Operator::Subtract,
        TokenKind::Mark(Mark::Times) => Operator::Multiply,
        TokenKind::Mark(Mark::Divide) => Operator::Divide,
        TokenKind::Mark(Mark::Remainder) => Operator::Remainder,
        _ => Operator::Or,
    }
}

/// One operand by itself, or a chain of several.
pub fn chain(
    alloc: Global,
    span: Span,
    first: Expr,
    others: Items<Link>,
) -> Result<Expr, AllocError>
    ensures { IfOk result (λ found. found ≡ to_chain span first others) }
{
    if others.is_empty() {
        return Ok(first);
    }
    Ok(Expr::Chain(Chain {
        first: Boxed::new(alloc, first)?,
        others,
        span,
    }))
}
