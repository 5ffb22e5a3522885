//! Values that the text itself tells.

ghost use Rattle.std.specs.Prelude.{◌≡◌, [], ◌∷◌, replicate, IfSome, MatchResult};
ghost use Rattle.cl_meaning.specs.Operators as operators;
ghost use Rattle.cl_meaning.specs.Outer as outside;

use crate::stop::Stop;
use cl_ast::TypeName;
use cl_value::{FieldType, Value};
use std::alloc::Global;

/// The type of a field that a variable of a type is given to.
pub fn field_type(of: TypeName) -> FieldType
    ensures { result ≡ operators.field_type of }
{
    match of {
        TypeName::Int => FieldType::Int,
        TypeName::Long => FieldType::Long,
        TypeName::Char => FieldType::Char,
    }
}

/// The number, or 0 where it is less.
pub fn natural(n: i64) -> u64
    ensures { result ≡ outside.natural n }
{
    if n < 0 { 0 } else { n.unsigned_abs() }
}

/// The number of an initial value, as a value of the variable's type; none where it doesn't fit, which no tree without faults has.
pub fn initial(of: TypeName, n: i64) -> Option<Value>
    ensures { IfSome result (λ value. value ≡ outside.initial of n) }
{
    match of {
        TypeName::Int => match i32::try_from(n) {
            Ok(n) => Some(Value::Int(n)),
            Err(_) => None,
        },
        TypeName::Long => Some(Value::Long(n)),
        TypeName::Char => cl_state::converted(of, Value::Long(n)).ok(),
    }
}

/// A literal behind a minus, or without one.
pub fn with_sign(is_negative: bool, value: Value) -> Option<Value>
    ensures { IfSome result (λ v. v ≡ outside.with_sign is_negative value) }
{
    match value {
        Value::Int(n) if is_negative => n.checked_neg().map(Value::Int),
        Value::Long(n) if is_negative => n.checked_neg().map(Value::Long),
        other => Some(other),
    }
}

/// So many equal values.
pub fn zeros(alloc: Global, of: TypeName, count: u64) -> Result<Vec<Value>, Stop>
    ensures { MatchResult result (λ values. values.items ≡ replicate count (operators.zero_of of)) (λ stop. stop ≡ Stop.NoMemory) }
{
    let mut values = Vec::new(alloc);
    let Ok(count) = usize::try_from(count) else {
        return Err(Stop::NoMemory);
    };
    values.reserve(count)?;
    for _ in 0..count {
        values.reserve(1)?;
        values.push_reserved(cl_state::zero_of(of));
    }
    Ok(values)
}

/// One value.
pub fn single(alloc: Global, value: Value) -> Result<Vec<Value>, Stop>
    ensures { MatchResult result (λ values. values.items ≡ value ∷ []) (λ stop. stop ≡ Stop.NoMemory) }
{
    let mut values = Vec::new(alloc);
    values.reserve(1)?;
    values.push_reserved(value);
    Ok(values)
}
