/// An instruction of the machine, which has cells (the globals, and those of the active function's frame)
/// and a stack of 64-bit numbers. (This project; arithmetic: ISO/IEC 9899:1999, 6.5.)
///
/// Numbers of every type of the language are kept as 64-bit numbers. A result that doesn't fit its type is
/// the trap `Overflow`. An address is a place in the list of all instructions, from 0.
#[derive(Clone, Copy, Debug, PartialEq, Eq)]
pub enum Instr {
    /// Pushes the number.
    PushInt(i32),
    /// Pushes the number.
    PushLong(i64),
    /// Pushes a cell of the frame.
    LoadLocal(u32),
    /// Pushes a global cell.
    LoadGlobal(u32),
    /// Pops a number into a cell of the frame.
    StoreLocal(u32),
    /// Pops a number into a global cell.
    StoreGlobal(u32),
    /// Of an array in the frame with this base and length: pops the index and pushes the element. An index
    /// out of range is the trap `IndexRange`.
    LoadLocalAt(u32, u32),
    /// The same of a global array.
    LoadGlobalAt(u32, u32),
    /// Of an array in the frame with this base and length: pops the value, then the index, and stores. An
    /// index out of range is the trap `IndexRange`.
    StoreLocalAt(u32, u32),
    /// The same of a global array.
    StoreGlobalAt(u32, u32),
    /// Traps with `IndexRange` unless the top of the stack is at least 0 and below this length.
    CheckIndex(u32),
    /// Sets the cells of the frame from this base on, of this number, to 0.
    Clear(u32, u32),
    /// Pops two numbers of type `int` and pushes their sum.
    AddInt,
    /// The same with their difference: the upper number is subtracted from the other.
    SubInt,
    /// The same with their product.
    MulInt,
    /// The same with their quotient, cut toward zero. The upper number is the divisor; 0 is the trap
    /// `DivideByZero`.
    DivInt,
    /// The same with their remainder, which has the dividend's sign. The least `int` by -1 is the trap
    /// `Overflow`.
    RemInt,
    /// Replaces the top by its negation as an `int`.
    NegInt,
    /// As `AddInt`, of type `long`.
    AddLong,
    /// As `SubInt`, of type `long`.
    SubLong,
    /// As `MulInt`, of type `long`.
    MulLong,
    /// As `DivInt`, of type `long`.
    DivLong,
    /// As `RemInt`, of type `long`.
    RemLong,
    /// As `NegInt`, of type `long`.
    NegLong,
    /// Pops two numbers and pushes 1 where the lower one is less than the upper one, else 0.
    Less,
    /// The same for at most.
    LessEqual,
    /// The same for greater.
    Greater,
    /// The same for at least.
    GreaterEqual,
    /// The same for equal.
    Equal,
    /// The same for different.
    NotEqual,
    /// Replaces the top by 1 where it is 0, else by 0.
    Not,
    /// Converts the top to `int`; one that doesn't fit is the trap `Overflow`.
    Narrow,
    /// Converts the top to `char`, modulo 256.
    ToChar,
    /// Goes to the address.
    Jump(u32),
    /// Pops a number and goes to the address where it is 0.
    JumpZero(u32),
    /// Counts one tick; one more than the limit is the trap `StepLimit`.
    Tick,
    /// Pops the arguments of the function with this number and makes its frame. It counts one tick, then
    /// tests the number of active functions (`CallDepth`), then the cells (`CellLimit`).
    Call(u32),
    /// Pops the result, drops the frame and pushes the result for the function that called.
    Return,
    /// Drops the top.
    Pop,
    /// Pops the arguments of the format with this number and adds its bytes to the output; more than the
    /// limit is the trap `OutputLimit`, and nothing is added.
    Print(u32),
    /// Pops the actuals and the arguments of the calls of the site with this number and demands its
    /// request. After the reply it pushes the values of the formals in order, zeros on a miss, and then for
    /// `inp` and `rdp` 1 for a hit and 0 for a miss.
    Perform(u32),
}
