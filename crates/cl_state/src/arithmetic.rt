//! Arithmetic on values, with its traps. (ISO/IEC 9899:1999, 6.3.1 and 6.5.3 to 6.5.9; where a result doesn't fit: this project.)

ghost use Rattle.std.specs.Prelude.{◌≡◌, ℤ, FitsSigned, int_div, int_rem};
ghost use Rattle.std.specs.Int.{w64, IsNonZero};
ghost use Rattle.std.specs.Option.{SomeIff};
ghost use Rattle.cl_state.specs.Arithmetic.{is_long};
ghost use Rattle.cl_model.specs.Numbers as numbers;
ghost use Rattle.cl_meaning.specs.Operators as operators;

use cl_ast::{Constant, Operator, TypeName};
use cl_value::{Trap, Value};

/// The number that a value is; of a text, its number.
pub fn number(value: Value) -> i64
    ensures { result ≡ numbers.number value }
{
    match value {
        Value::Int(n) => i64::from(n),
        Value::Long(n) => n,
        Value::Char(n) => i64::from(n),
        Value::Text(n) => i64::from(n),
    }
}

/// 1 or 0, as an `int`.
pub fn truth(test: bool) -> Value
    ensures { result ≡ numbers.truth test }
{
    if test { Value::Int(1) } else { Value::Int(0) }
}

/// Whether the number of a value is 0.
pub fn is_zero(value: Value) -> bool
    ensures { result ≡ numbers.is_zero value }
{
    number(value) == 0
}

/// What a literal means; a character is an `int`.
pub fn literal(constant: Constant) -> Value
    ensures { result ≡ operators.literal constant }
{
    match constant {
        Constant::Int(n) => Value::Int(n),
        Constant::Long(n) => Value::Long(n),
        Constant::Character(byte) => Value::Int(i32::from(byte)),
    }
}

/// What a variable of a type begins with.
pub fn zero_of(of: TypeName) -> Value
    ensures { result ≡ operators.zero_of of }
{
    match of {
        TypeName::Int => Value::Int(0),
        TypeName::Long => Value::Long(0),
        TypeName::Char => Value::Char(0),
    }
}

fn int_or_trap(n: i64) -> Result<Value, Trap>
    ensures { result ≡ numbers.int_or_trap n }
{
    match i32::try_from(n) {
        Ok(n) => Ok(Value::Int(n)),
        Err(_) => Err(Trap::Overflow),
    }
}

fn is_long(value: Value) -> bool
    ensures { result ≡ is_long value }
{
    match value {
        Value::Long(_) => true,
        _ => false,
    }
}

// A result of two operands: `long` where one of them is, else `int`.
fn in_common(a: Value, b: Value, n: i64) -> Result<Value, Trap>
    ensures { result ≡ numbers.in_common a b n }
{
    if is_long(a) || is_long(b) {
        Ok(Value::Long(n))
    } else {
        int_or_trap(n)
    }
}

// The same of a result that may not even be a `long`.
fn checked(a: Value, b: Value, n: Option<i64>) -> Result<Value, Trap>
    ensures { (z : ℤ) → SomeIff n (FitsSigned w64 z) z → result ≡ numbers.in_common a b z }
{
    match n {
        Some(n) => in_common(a, b, n),
        None => Err(Trap::Overflow),
    }
}

/// The value as one of a type: `Overflow` where it doesn't fit an `int`; a `char` is modulo 256.
pub fn converted(of: TypeName, value: Value) -> Result<Value, Trap>
    ensures { result ≡ operators.converted of value }
{
    match of {
        TypeName::Int => int_or_trap(number(value)),
        TypeName::Long => Ok(Value::Long(number(value))),
        TypeName::Char => Ok(Value::Char(byte_of(number(value)))),
    }
}

// A number modulo 256.
fn byte_of(n: i64) -> u8
    ensures { result ≡ numbers.byte_of n }
{
    let rest = n.unsigned_abs();
    if n < 0 {
        255 - ((rest - 1) % 256) as u8
    } else {
        (rest % 256) as u8
    }
}

// What a result is that is no `long`.
fn too_great(a: Value, b: Value) -> Result<Value, Trap>
    ensures { (z : ℤ) → ¬ FitsSigned w64 z → result ≡ numbers.in_common a b z }
{
    checked(a, b, None)
}

// The quotient of two numbers, as a result of two operands.
fn divided(a: Value, b: Value, dividend: i64, divisor: i64) -> Result<Value, Trap>
    ensures { IsNonZero w64 divisor → result ≡ numbers.in_common a b (int_div dividend divisor) }
{
    match dividend.checked_div(divisor) {
        Some(n) => in_common(a, b, n),
        None => too_great(a, b),
    }
}

fn quotient(a: Value, b: Value) -> Result<Value, Trap>
    ensures { result ≡ numbers.quotient a b }
{
    let divisor = number(b);
    if divisor == 0 {
        return Err(Trap::DivideByZero);
    }
    divided(a, b, number(a), divisor)
}

fn remainder(a: Value, b: Value) -> Result<Value, Trap>
    ensures { result ≡ numbers.remainder a b }
{
    quotient(a, b)?;
    match number(a).checked_rem(number(b)) {
        Some(n) => in_common(a, b, n),
        None => too_great(a, b),
    }
}

fn is_less(a: Value, b: Value) -> bool
    ensures { result ≡ numbers.is_less a b }
{
    number(a) < number(b)
}

fn is_equal(a: Value, b: Value) -> bool
    ensures { result ≡ numbers.is_equal a b }
{
    number(a) == number(b)
}

/// An operator on two values: `Overflow` where the result fits neither operand's wider type, `DivideByZero` at a quotient or remainder by 0. `&&`
/// and `||` give their second operand: whoever walks a tree leaves it out where the first decides.
pub fn operated(operator: Operator, a: Value, b: Value) -> Result<Value, Trap>
    ensures { result ≡ operators.operated operator a b }
{
    match operator {
        Operator::Add => checked(a, b, number(a).checked_add(number(b))),
        Operator::Subtract => checked(a, b, number(a).checked_sub(number(b))),
        Operator::Multiply => checked(a, b, number(a).checked_mul(number(b))),
        Operator::Divide => quotient(a, b),
        Operator::Remainder => remainder(a, b),
        Operator::Equal => Ok(truth(is_equal(a, b))),
        Operator::NotEqual => Ok(truth(!is_equal(a, b))),
        Operator::Less => Ok(truth(is_less(a, b))),
        Operator::LessEqual => Ok(truth(!is_less(b, a))),
        Operator::Greater => Ok(truth(is_less(b, a))),
        Operator::GreaterEqual => Ok(truth(!is_less(a, b))),
        Operator::And | Operator::Or => Ok(b),
    }
}

/// A value with the other sign: `Overflow` at the least `int` and the least `long`.
pub fn negated(value: Value) -> Result<Value, Trap>
    ensures { result ≡ numbers.negated value }
{
    checked(value, value, number(value).checked_neg())
}
