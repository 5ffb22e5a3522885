use cl_value::{FieldType, Value};

/// A field of a live tuple that was read from a log, without the arguments of its call: these stand in a list of
/// their own, behind those of the calls before it. (This project.)
#[derive(Clone, Copy)]
pub enum SeenPart {
    /// Evaluated by the process that made the live tuple.
    Ready(Value),
    /// Computed by the new process.
    Call {
        /// The number of the function in text order, from 0.
        function: u32,
        /// How many arguments it has.
        count: usize,
        /// The type of the result.
        gives: FieldType,
    },
}
