ghost use Rattle.std.specs.Prelude.{◌≡◌};
ghost use Rattle.cl_types.specs.Numbers.{is_size, fits_type};

use crate::Number;
use cl_ast::{Constant, TypeName};
use cl_ground::MOST_SIZE;

/// Whether the value of a number lies between these, both included.
fn is_between(low: i64, high: i64, value: i64) -> bool
    ensures { result ≡ is_between low high value }
{
    low <= value && value <= high
}

ghost use Rattle.cl_types.specs.Numbers.{is_between, literal_value};

/// The value of a literal.
fn literal_value(literal: Constant) -> i64
    ensures { result ≡ literal_value literal }
{
    match literal {
        Constant::Int(value) => i64::from(value),
        Constant::Long(value) => value,
        Constant::Character(byte) => i64::from(byte),
    }
}

/// Whether an array may have so many elements.
pub fn is_size(number: Number) -> bool
    ensures { result ≡ is_size number }
{
    let value = literal_value(number.literal);
    let most = i64::from(MOST_SIZE);
    if number.is_negative {
        is_between(-most, -1, value)
    } else {
        is_between(1, most, value)
    }
}

/// Whether a variable of the type can have the number as its initial value.
pub fn fits_type(type_name: TypeName, number: Number) -> bool
    ensures { result ≡ fits_type type_name number }
{
    match type_name {
        TypeName::Int => {
            let value = literal_value(number.literal);
            if number.is_negative {
                is_between(-2147483647, 2147483648, value)
            } else {
                is_between(-2147483648, 2147483647, value)
            }
        }
        TypeName::Long | TypeName::Char => true,
    }
}
