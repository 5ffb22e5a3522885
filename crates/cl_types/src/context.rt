use cl_ast::TypeName;

/// What is done at a place.
#[derive(Clone, Copy, Debug, PartialEq, Eq)]
pub enum Access {
    /// Its value is read.
    Read,
    /// It is given a value.
    Write,
}

/// Why a function is called.
#[derive(Clone, Copy, Debug, PartialEq, Eq)]
pub enum Purpose {
    /// For its value.
    Value,
    /// As a statement, which lets its value go.
    Statement,
}

/// Where a variable is declared.
#[derive(Clone, Copy, Debug, PartialEq, Eq)]
pub enum Reach {
    /// Outside of all functions.
    Global,
    /// In a function.
    Local,
}

/// What stands round a statement.
#[derive(Clone, Copy, Debug, PartialEq, Eq)]
pub struct Context {
    /// The type of the function's result; none at `void`.
    pub result: Option<TypeName>,
    /// Whether a loop stands round it.
    pub is_in_loop: bool,
}
