use cl_ast::TypeName;
use cl_value::Value;

/// A variable with its values, or a defined constant. (ISO/IEC 9899:1999, 6.2.1 and 6.7.)
#[derive(Drop)]
pub struct Variable<'a> {
    /// Its name, as the tree has it.
    pub name: &'a [u8],
    /// Its type, or that of its elements.
    pub of: TypeName,
    /// Its value, or those of an array's elements in order.
    pub values: Vec<Value>,
}
