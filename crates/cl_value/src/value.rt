/// The type of a field of a tuple. (Sizes and signs are this project's choice among those that C allows.)
#[derive(Clone, Copy, Debug, PartialEq, Eq)]
pub enum FieldType {
    /// `int`: 32 bits, signed.
    Int,
    /// `long`: 64 bits, signed.
    Long,
    /// `char`: 8 bits, unsigned.
    Char,
    /// A string literal. This project keeps texts apart from numbers and characters.
    Text,
}

/// The value of a field of a tuple.
#[derive(Clone, Copy, Debug, PartialEq, Eq)]
pub enum Value {
    /// An `int`.
    Int(i32),
    /// A `long`.
    Long(i64),
    /// A `char`.
    Char(u8),
    /// The place of the literal among the distinct string literals that stand as fields, in order of
    /// first use, from 0. Two texts are equal exactly where their numbers are.
    Text(u32),
}

impl Value {
    ghost use Rattle.std.specs.Prelude.{◌≡◌};
    ghost use Rattle.cl_value.specs.Matching.{type_of};

    /// The type that the value has.
    pub fn type_of(self) -> FieldType
        ensures { result ≡ type_of self }
    {
        match self {
            Value::Int(_) => FieldType::Int,
            Value::Long(_) => FieldType::Long,
            Value::Char(_) => FieldType::Char,
            Value::Text(_) => FieldType::Text,
        }
    }
}
