ghost use Rattle.std.specs.Prelude.{◌++◌, Ok};
ghost use Rattle.cl_rules.specs.Unroll.{onwards};
ghost use Rattle.cl_ast.specs.Grammar as parts;
ghost use Rattle.cl_parse_expr.specs.Steps.{plain_tokens, reading, Gives};
ghost use Rattle.cl_parse.specs.Readings.{parameter_reading, next_parameter_reading, more_parameters_reading, parameters_reading};

use crate::declare::type_name;
use cl_ast::{Mark, Parameter, Span, Token, Word};
use cl_parse_expr::{Class, Failure, begins, name, take};
use sqlite_items::Items;
use std::alloc::Global;

/// Reads a type and a name.
#[tactic(auto, using(crate::proofs::Equations::parameter_reads))]
fn parameter(
    alloc: Global,
    nesting: u8,
    tokens: &[Token],
) -> Result<(Parameter, &[Token]), Failure<'_>>
    ensures { Gives result (parameter_reading nesting (plain_tokens tokens.now)) }
{
    let (first, rest) = take(Class::Type, tokens)?;
    let (last, rest) = take(Class::Name, rest)?;
    let type_name = type_name(&first.kind);
    let name = name(alloc, last)?;
    let span = Span {
        start: first.span.start,
        end: last.span.end,
    };
    Ok((
        Parameter {
            type_name,
            name,
            span,
        },
        rest,
    ))
}

/// Reads a comma and a parameter.
#[tactic(auto, using(crate::proofs::Equations::next_parameter_reads))]
fn next_parameter(
    alloc: Global,
    nesting: u8,
    tokens: &[Token],
) -> Result<(Parameter, &[Token]), Failure<'_>>
    ensures { Gives result (next_parameter_reading nesting (plain_tokens tokens.now)) }
{
    let (_, rest) = take(Class::Mark(Mark::Comma), tokens)?;
    let (found, rest) = parameter(alloc, nesting, rest)?;
    Ok((found, rest))
}

/// Reads parameters behind commas, as many as there are, and puts them behind those found.
#[tactic(auto, using(crate::proofs::Equations::more_parameters_reads))]
fn more_parameters(
    alloc: Global,
    nesting: u8,
    found: Items<Parameter>,
    tokens: &[Token],
) -> Result<(Items<Parameter>, &[Token]), Failure<'_>>
    ensures { Gives result (onwards (more_parameters_reading nesting (plain_tokens tokens.now)) (λ xs us. Ok (found ++ xs, us))) }
{
    let mut all = found;
    let mut rest = tokens;
    while begins(Class::Mark(Mark::Comma), rest) {
        let (next, behind) = next_parameter(alloc, nesting, rest)?;
        all.push(next)?;
        rest = behind;
    }
    Ok((all, rest))
}

/// Reads parameters, `void`, or nothing.
#[tactic(auto, using(crate::proofs::Equations::parameters_reads))]
fn parameters(
    alloc: Global,
    nesting: u8,
    tokens: &[Token],
) -> Result<(Items<Parameter>, &[Token]), Failure<'_>>
    ensures { Gives result (parameters_reading nesting (plain_tokens tokens.now)) }
{
    let mut found = Items::new(alloc);
    if begins(Class::Parameters, tokens) {
        if begins(Class::Word(Word::Void), tokens) {
            let (_, rest) = take(Class::Word(Word::Void), tokens)?;
            Ok((found, rest))
        } else {
            let (first, rest) = parameter(alloc, nesting, tokens)?;
            found.push(first)?;
            more_parameters(alloc, nesting, found, rest)
        }
    } else {
        Ok((found, tokens))
    }
}

/// Reads the parameters of a function, in their brackets.
#[tactic(auto, using(crate::proofs::Equations::params_reads, crate::proofs::Equations::params_refused))]
pub fn params(
    alloc: Global,
    nesting: u8,
    tokens: &[Token],
) -> Result<(Items<Parameter>, &[Token]), Failure<'_>>
    ensures { Gives result (reading parts.params nesting (plain_tokens tokens.now)) }
{
    if nesting == 0 {
        if begins(Class::Mark(Mark::OpenBracket), tokens) {
            Err(Failure::TooDeep(tokens))
        } else {
            Err(Failure::Syntax(tokens))
        }
    } else {
        let (_, rest) = take(Class::Mark(Mark::OpenBracket), tokens)?;
        let (found, rest) = parameters(alloc, nesting - 1, rest)?;
        let (_, rest) = take(Class::Mark(Mark::CloseBracket), rest)?;
        Ok((found, rest))
    }
}
