//! What operations do.

/// What an operation does with the numbers of the values that it reads, called a, b, c in order. Numbers have 64 bits.
/// What follows each variant in brackets is how many values it reads, and `=` where it makes one.
#[derive(Clone, Copy)]
pub enum Code {
    /// A number. [0 =]
    Const(u64),
    /// The address so many bytes behind the start of the globals. [0 =]
    Global(u32),
    /// The address so many bytes before the end of the running procedure's local data. [0 =]
    Local(u32),
    /// a plus a number. [1 =]
    Plus(u32),
    /// The address of a procedure's code. [0 =]
    Code(u32),
    /// An argument word of the running procedure; 0 to 3 are parameters of its first block instead. [0 =]
    Arg(u32),
    /// The eight bytes at a. [1 =]
    Load,
    /// Stores b in the eight bytes at a. [2]
    Store,
    /// The byte at a. [1 =]
    LoadByte,
    /// Stores the lowest byte of b at a. [2]
    StoreByte,
    /// [2 =]
    Add,
    /// [2 =]
    Sub,
    /// [2 =]
    And,
    /// [2 =]
    Or,
    /// [2 =]
    Eor,
    /// a without the bits of b. [2 =]
    Bic,
    /// a shifted left by b. [2 =]
    Lsl,
    /// a shifted right by b, with its sign. [2 =]
    Asr,
    /// a turned right by b. [2 =]
    Ror,
    /// [2 =]
    Mul,
    /// a times b plus c. [3 =]
    MulAdd,
    /// [1 =]
    Neg,
    /// Each bit turned over. [1 =]
    Not,
    /// [1 =]
    Abs,
    /// a, or 0 where it is negative. [1 =]
    Max0,
    /// The lowest bit. [1 =]
    Odd,
    /// 1 where a condition, by its number in instructions, holds between a and b, else 0. [2 =]
    Set(u8),
    /// 1 where a is 0, else 0. [1 =]
    Flip,
    /// The set of a alone. [1 =]
    Bit,
    /// The set of a to b. [2 =]
    Span,
    /// 1 where a is in the set b, else 0. [2 =]
    Has,
    /// DIV; trap 4 where b isn't positive. [2 =]
    Div,
    /// MOD; trap 4 where b isn't positive. [2 =]
    Mod,
    /// Trap 1 where a isn't below b, both without sign. [2]
    Below,
    /// Trap 12 where a is above b, both without sign. [2]
    Fits,
    /// Trap 11 where a isn't 0 to 255. [1]
    Byte,
    /// Trap 7 where a isn't 0 to 63. [1]
    Elem,
    /// Trap 2 where a is NIL. [1]
    NotNil,
    /// Trap 5 where a is 0. [1]
    True,
    /// 1 where the object at a has descriptor b at a level of its own descriptor, else 0; 0 for NIL. [2 =]
    IsPtr(u32),
    /// The same of the descriptor a. [2 =]
    IsTag(u32),
    /// Trap 2 where a is NIL, trap 3 where `IsPtr` isn't 1. [2]
    GuardPtr(u32),
    /// Trap 3 where `IsTag` isn't 1. [2]
    GuardTag(u32),
    /// A new object of a cells and b bytes, its descriptor's address included, with descriptor c; trap 10 where the heap
    /// has fewer cells. [3 =]
    New,
    /// Calls a procedure with the values as argument words, at most 24. [any, maybe =]
    Call(u32),
    /// Calls the procedure whose code is at a, with the other values as argument words. [1 and more, maybe =]
    CallAt,
    /// Copies c bytes to a from b. [3]
    Copy,
    /// Makes b bytes at a zero. [2]
    Zero,
    /// Compares the text of b bytes at a with that of d bytes at c: the difference of their first different characters. [4 =]
    Compare,
    /// A service: 1 writes the byte a, 2 the number a with the width b, 3 the text at a of at most b characters that lie
    /// c bytes apart, 4 takes a byte of the input. [1, 2, 3, 0 =]
    Svc(u16),
}
