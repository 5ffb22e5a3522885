ghost use Rattle.std.specs.Prelude.{◌≡◌};
ghost use Rattle.std.specs.Option.{option_copied};
ghost use Rattle.cl_types.specs.Notes.{found_all};
ghost use Rattle.cl_types.specs.Types.{literal_type, promoted, common, is_arithmetic, operated, negated_type};
ghost use Rattle.cl_types.specs.Journals.{noted_all};
ghost use Rattle.cl_types.specs.Expressions.{access_type, place_type, place_faults, called_type, call_faults, count_faults, width_faults, formal_faults, makes_tuple};

use crate::{Access, Declared, Journal, Purpose, TypeKind};
use cl_ast::{Constant, Operator, TypeName, Verb};
use cl_ground::MOST_FIELDS;

/// The type of a literal.
pub fn literal_type(literal: Constant) -> TypeName
    ensures { result ≡ literal_type literal }
{
    match literal {
        Constant::Int(_) => TypeName::Int,
        Constant::Long(_) => TypeName::Long,
        Constant::Character(_) => TypeName::Int,
    }
}

/// What a type is in arithmetic.
fn promoted(t: TypeName) -> TypeName
    ensures { result ≡ promoted t }
{
    match t {
        TypeName::Int | TypeName::Char => TypeName::Int,
        TypeName::Long => TypeName::Long,
    }
}

/// The type in which two operands are taken.
fn common(a: TypeName, b: TypeName) -> TypeName
    ensures { result ≡ common a b }
{
    match a {
        TypeName::Long => TypeName::Long,
        TypeName::Int | TypeName::Char => promoted(b),
    }
}

/// Whether the operator computes a number of its operands' type.
fn is_arithmetic(operator: Operator) -> bool
    ensures { result ≡ is_arithmetic operator }
{
    match operator {
        Operator::Or => false,
        Operator::And => false,
        Operator::Equal => false,
        Operator::NotEqual => false,
        Operator::Less => false,
        Operator::LessEqual => false,
        Operator::Greater => false,
        Operator::GreaterEqual => false,
        Operator::Add => true,
        Operator::Subtract => true,
        Operator::Multiply => true,
        Operator::Divide => true,
        Operator::Remainder => true,
    }
}

/// The type that an operator gives.
pub fn operated(operator: Operator, a: Option<TypeName>, b: Option<TypeName>) -> Option<TypeName>
    ensures { result ≡ operated operator a b }
{
    if is_arithmetic(operator) {
        Some(common(a?, b?))
    } else {
        Some(TypeName::Int)
    }
}

/// The type that a minus gives.
pub fn negated_type(t: Option<TypeName>) -> Option<TypeName>
    ensures { result ≡ negated_type t }
{
    Some(promoted(t?))
}

/// The type of what stands at a place, where it may be read or written so.
fn access_type(access: Access, is_indexed: bool, what: &Declared) -> Option<TypeName>
    ensures { result ≡ access_type access is_indexed what.now }
{
    match what {
        Declared::Scalar(t) => { if is_indexed { None } else { Some(*t) } }
        Declared::Array(t) => { if is_indexed { Some(*t) } else { None } }
        Declared::Constant(number) => match access {
            Access::Read => {
                if is_indexed {
                    None
                } else {
                    Some(literal_type(number.literal))
                }
            }
            Access::Write => None,
        },
        Declared::Function(_) => None,
    }
}

/// The type of a place by what its name is, where that is known.
pub fn place_type(access: Access, is_indexed: bool, what: Option<&Declared>) -> Option<TypeName>
    ensures { result ≡ place_type access is_indexed (option_copied what.entry) }
{
    access_type(access, is_indexed, what?)
}

/// Reports what is wrong with the name of a place.
pub fn report_place(
    access: Access,
    is_indexed: bool,
    what: Option<&Declared>,
    place: u32,
    journal: &mut Journal,
)
    ensures { journal.new ≡ noted_all (found_all (place_faults access is_indexed (option_copied what.entry)) place) journal.old }
{
    match what {
        None => journal.report(TypeKind::UnknownName, place),
        Some(what) => {
            if access_type(access, is_indexed, what).is_none() {
                journal.report(TypeKind::WrongType, place);
            }
        }
    }
}

/// The type that a call gives.
pub fn called_type(what: Option<&Declared>) -> Option<TypeName>
    ensures { result ≡ called_type (option_copied what.entry) }
{
    match what {
        Some(Declared::Function(function)) => function.result,
        _ => None,
    }
}

/// Reports another count than that which is wanted.
pub fn report_count(wanted: usize, given: usize, place: u32, journal: &mut Journal)
    ensures { journal.new ≡ noted_all (found_all (count_faults wanted given) place) journal.old }
{
    if wanted != given {
        journal.report(TypeKind::WrongCount, place);
    }
}

/// Reports a call for its value of a function that gives none.
fn report_value(purpose: Purpose, gives: Option<TypeName>, place: u32, journal: &mut Journal)
    ensures { journal.new ≡ noted_all (found_all (value_faults purpose gives) place) journal.old }
{
    match (purpose, gives) {
        (Purpose::Value, None) => journal.report(TypeKind::WrongType, place),
        _ => {}
    }
}

ghost use Rattle.cl_types.specs.Expressions.{value_faults};

/// Reports what is wrong with the name of a call.
pub fn report_call(
    purpose: Purpose,
    given: usize,
    what: Option<&Declared>,
    place: u32,
    journal: &mut Journal,
)
    ensures { journal.new ≡ noted_all (found_all (call_faults purpose given (option_copied what.entry)) place) journal.old }
{
    match what {
        None => journal.report(TypeKind::UnknownName, place),
        Some(Declared::Function(function)) => {
            report_value(purpose, function.result, place, journal);
            report_count(function.parameters.len(), given, place, journal);
        }
        Some(_) => journal.report(TypeKind::WrongType, place),
    }
}

/// Reports an operation with too many fields.
pub fn report_width(count: usize, place: u32, journal: &mut Journal)
    ensures { journal.new ≡ noted_all (found_all (width_faults count) place) journal.old }
{
    if MOST_FIELDS < count {
        journal.report(TypeKind::WrongCount, place);
    }
}

/// Whether the operation makes a tuple.
fn makes_tuple(verb: Verb) -> bool
    ensures { result ≡ makes_tuple verb }
{
    match verb {
        Verb::Out | Verb::Eval => true,
        Verb::In | Verb::Rd | Verb::Inp | Verb::Rdp => false,
    }
}

/// Reports a formal that can't stand in the operation.
pub fn report_formal(verb: Verb, place: u32, journal: &mut Journal)
    ensures { journal.new ≡ noted_all (found_all (formal_faults verb) place) journal.old }
{
    if makes_tuple(verb) {
        journal.report(TypeKind::BadField, place);
    }
}
