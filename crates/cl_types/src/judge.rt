ghost use Rattle.std.specs.Prelude.{◌≡◌, map};
ghost use Rattle.cl_types.specs.Journals.{noted_all};
ghost use Rattle.cl_types.specs.Expressions.{judged, judged_place, judged_call, judged_chain, operation_notes, field_notes, formal_notes, index_notes, notes_of, all_judged, joined, all_noted, constant_of, constant_named};
ghost use Rattle.std.specs.Prelude.{option_map};

use crate::expression::{
    called_type, literal_type, negated_type, operated, place_type, report_call, report_formal,
    report_place, report_width,
};
use crate::scopes::Scopes;
use crate::{Access, Declared, Journal, Number, Purpose};
use cl_ast::{Call, Chain, Expr, Field, Formal, Operation, Place, TypeName, Verb};
use sqlite_items::Boxed;

/// Judges an expression: its type, where it is found, and what is noted of it.
#[cycle(judging)]
pub fn expr(e: &Expr, scopes: &Scopes<'_>, journal: &mut Journal) -> Option<TypeName>
    ensures type_name { result ≡ (judged e.now scopes.now).type }
    ensures notes { journal.new ≡ noted_all (judged e.now scopes.now).notes journal.old }
{
    match e {
        Expr::Literal(literal) => Some(literal_type(literal.value)),
        Expr::Place(part) => place(part, Access::Read, scopes, journal),
        Expr::Call(part) => call(part, Purpose::Value, scopes, journal),
        Expr::Operation(part) => {
            operation(part, scopes, journal);
            Some(TypeName::Int)
        }
        Expr::Chain(part) => chain(part, scopes, journal),
        Expr::Negate(part) => negated_type(expr(part.operand.get(), scopes, journal)),
        Expr::Not(part) => {
            expr(part.operand.get(), scopes, journal);
            Some(TypeName::Int)
        }
    }
}

/// Judges an index.
#[cycle(judging)]
fn index(part: &Option<Boxed<Expr>>, scopes: &Scopes<'_>, journal: &mut Journal)
    ensures { journal.new ≡ noted_all (index_notes (option_map (λ e. judged e scopes.now) part.now)) journal.old }
{
    match part {
        Some(e) => {
            expr(e.get(), scopes, journal);
        }
        None => {}
    }
}

/// Judges a place that is read or written.
#[cycle(judging)]
pub fn place(
    part: &Place,
    access: Access,
    scopes: &Scopes<'_>,
    journal: &mut Journal,
) -> Option<TypeName>
    ensures type_name { result ≡ (judged_place part.now access scopes.now).type }
    ensures notes { journal.new ≡ noted_all (judged_place part.now access scopes.now).notes journal.old }
{
    let what = scopes.look_up(part.name.bytes.as_slice());
    let is_indexed = part.index.is_some();
    report_place(access, is_indexed, what, part.name.span.start, journal);
    index(&part.index, scopes, journal);
    place_type(access, is_indexed, what)
}

/// Judges a call for its value or as a statement.
#[cycle(judging)]
pub fn call(
    part: &Call,
    purpose: Purpose,
    scopes: &Scopes<'_>,
    journal: &mut Journal,
) -> Option<TypeName>
    ensures type_name { result ≡ (judged_call part.now purpose scopes.now).type }
    ensures notes { journal.new ≡ noted_all (judged_call part.now purpose scopes.now).notes journal.old }
{
    let what = scopes.look_up(part.name.bytes.as_slice());
    report_call(
        purpose,
        part.arguments.len(),
        what,
        part.name.span.start,
        journal,
    );
    arguments(part.arguments.as_slice(), scopes, journal);
    called_type(what)
}

/// Judges arguments, one after the other.
#[cycle(judging)]
fn arguments(parts: &[Expr], scopes: &Scopes<'_>, journal: &mut Journal)
    ensures { journal.new ≡ noted_all (notes_of (all_judged scopes.now (map judged parts.now))) journal.old }
{
    for i in 0..parts.len() {
        expr(&parts[i], scopes, journal);
    }
}

/// Judges an operation.
#[cycle(judging)]
pub fn operation(part: &Operation, scopes: &Scopes<'_>, journal: &mut Journal)
    ensures { journal.new ≡ noted_all (operation_notes part.now scopes.now) journal.old }
{
    journal.site(part.span.start);
    report_width(part.fields.len(), part.span.start, journal);
    fields(part.fields.as_slice(), part.verb, scopes, journal);
}

/// Judges fields, one after the other.
#[cycle(judging)]
fn fields(parts: &[Field], verb: Verb, scopes: &Scopes<'_>, journal: &mut Journal)
    ensures { journal.new ≡ noted_all (joined (all_noted verb scopes.now (map field_notes parts.now))) journal.old }
{
    for i in 0..parts.len() {
        field(&parts[i], verb, scopes, journal);
    }
}

/// Judges a field.
#[cycle(judging)]
fn field(part: &Field, verb: Verb, scopes: &Scopes<'_>, journal: &mut Journal)
    ensures { journal.new ≡ noted_all (field_notes part.now verb scopes.now) journal.old }
{
    match part {
        Field::Text(_) => {}
        Field::Formal(part) => formal(part, verb, scopes, journal),
        Field::Plain(e) => {
            expr(e, scopes, journal);
        }
    }
}

/// Judges a formal.
#[cycle(judging)]
fn formal(part: &Formal, verb: Verb, scopes: &Scopes<'_>, journal: &mut Journal)
    ensures { journal.new ≡ noted_all (formal_notes part.now verb scopes.now) journal.old }
{
    report_formal(verb, part.span.start, journal);
    place(&part.target, Access::Write, scopes, journal);
}

/// Judges operands with operators between them, from the left.
#[cycle(judging)]
fn chain(part: &Chain, scopes: &Scopes<'_>, journal: &mut Journal) -> Option<TypeName>
    ensures type_name { result ≡ (judged_chain part.now scopes.now).type }
    ensures notes { journal.new ≡ noted_all (judged_chain part.now scopes.now).notes journal.old }
{
    let mut found = expr(part.first.get(), scopes, journal);
    let links = part.others.as_slice();
    for i in 0..links.len() {
        let link = &links[i];
        let operand = expr(&link.operand, scopes, journal);
        found = operated(link.operator, found, operand);
    }
    found
}

/// The constant that the name of a place is, where it is one and has no index.
fn constant_named(part: &Place, scopes: &Scopes<'_>) -> Option<Number>
    ensures { result ≡ constant_named (out-Place part.now).name (is_there (out-Place part.now).index) scopes.now }
{
    if part.index.is_some() {
        return None;
    }
    match scopes.look_up(part.name.bytes.as_slice()) {
        Some(Declared::Constant(number)) => Some(*number),
        _ => None,
    }
}

ghost use Rattle.cl_ast.specs.declared.tree.Place.{out-Place};
ghost use Rattle.cl_types.specs.Expressions.{is_there, negated_number};

/// One more minus before a constant.
fn negated(number: Option<Number>) -> Option<Number>
    ensures { result ≡ negated_number number }
{
    let Number {
        is_negative,
        literal,
    } = number?;
    Some(Number {
        is_negative: !is_negative,
        literal,
    })
}

/// What an expression is as a constant: a literal or the name of a constant, behind any number of minuses.
pub fn constant(e: &Expr, scopes: &Scopes<'_>) -> Option<Number>
    ensures { result ≡ constant_of e.now scopes.now }
{
    match e {
        Expr::Literal(literal) => Some(Number {
            is_negative: false,
            literal: literal.value,
        }),
        Expr::Place(part) => constant_named(part, scopes),
        Expr::Negate(part) => negated(constant(part.operand.get(), scopes)),
        Expr::Call(_) => None,
        Expr::Operation(_) => None,
        Expr::Chain(_) => None,
        Expr::Not(_) => None,
    }
}
