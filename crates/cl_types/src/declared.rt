use cl_ast::{Constant, TypeName};
use sqlite_items::Items;

/// A literal, perhaps with a minus before it.
#[derive(Clone, Copy, Debug, PartialEq, Eq)]
pub struct Number {
    /// Whether the minus is there.
    pub is_negative: bool,
    /// The literal.
    pub literal: Constant,
}

/// What a function takes and gives.
#[derive(Drop)]
pub struct FunctionType {
    /// The type of its result; none at `void`.
    pub result: Option<TypeName>,
    /// The types of its parameters, in order.
    pub parameters: Items<TypeName>,
}

/// What a name is declared as. (ISO/IEC 9899:1999, 6.2.1 and 6.7.)
#[derive(Drop)]
pub enum Declared {
    /// A variable of a type, or a parameter.
    Scalar(TypeName),
    /// An array of variables of a type.
    Array(TypeName),
    /// A constant.
    Constant(Number),
    /// A function.
    Function(FunctionType),
}
