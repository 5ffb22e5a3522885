use cl_ground::Items;
use cl_value::FieldType;

/// A function of the code. (This project.)
#[derive(Drop)]
pub struct Function {
    /// The bytes of its name in the text.
    pub name: Items<u8>,
    /// The address of its first instruction. It has the addresses up to the next function's entry.
    pub entry: u32,
    /// The types of its parameters, `int`, `long` or `char`. They are its first cells.
    pub parameters: Items<FieldType>,
    /// The type of its result, if it has one.
    pub gives: Option<FieldType>,
    /// How many cells its parameters and locals take, which count for the limit of 65,536 cells. 65,537
    /// stands for every greater number: the function can never be entered.
    pub cells: u32,
    /// How many more cells its frame has, which don't count for the limit.
    pub temporaries: u32,
    /// The most numbers that its frame has on the stack.
    pub stack: u32,
}
