//! Numbers as values of a type. (This project.)

ghost use Rattle.std.specs.Prelude.{◌≡◌};
ghost use Rattle.cl_code.specs.Process.{result_as};
ghost use Rattle.cl_code.specs.Sites.{as_value};

use cl_value::{FieldType, Trap, Value};

/// A number as a value of a type; `Overflow` where it doesn't fit. No number is a text.
pub fn as_value(of: FieldType, n: i64) -> Result<Value, Trap>
    ensures { result ≡ as_value of n }
{
    match of {
        FieldType::Int => match i32::try_from(n) {
            Ok(n) => Ok(Value::Int(n)),
            Err(_) => Err(Trap::Overflow),
        },
        FieldType::Long => Ok(Value::Long(n)),
        FieldType::Char => match u8::try_from(n) {
            Ok(n) => Ok(Value::Char(n)),
            Err(_) => Err(Trap::Overflow),
        },
        FieldType::Text => Err(Trap::Overflow),
    }
}

/// The result of a function as a value; where the function gives nothing it is the `int` 0.
pub fn result_as(gives: Option<FieldType>, n: i64) -> Result<Value, Trap>
    ensures { result ≡ result_as gives n }
{
    match gives {
        None => Ok(Value::Int(0)),
        Some(of) => as_value(of, n),
    }
}
