//! What steps and runs answer.

/// What one step came to.
#[derive(Clone, Copy, Debug)]
pub enum Step {
    /// It was made, and the machine goes on.
    Going,
    /// SVC 0: the program has ended.
    Ended,
    /// BRK, with the kind of the trap and the number of the code word.
    Trapped { kind: u16, word: u32 },
    /// The fetched word isn't in the table.
    Undefined(u32),
    /// The address can't be fetched, loaded or stored.
    BadAddress(u64),
    /// There is no such service, or it can't be done so.
    BadCall(u16),
    /// The sink took less than the step writes. The step isn't made.
    WriteFault,
}

/// What a run came to.
#[derive(Clone, Copy, PartialEq, Eq, Debug)]
pub enum Halt {
    /// All the steps were made, and the machine would go on.
    Spent,
    /// SVC 0: the program has ended.
    Ended,
    /// BRK, with the kind of the trap and the number of the code word.
    Trapped { kind: u16, word: u32 },
    /// A fetched word isn't in the table.
    Undefined(u32),
    /// An address can't be fetched, loaded or stored.
    BadAddress(u64),
    /// There is no such service, or it can't be done so.
    BadCall(u16),
    /// The sink took less than a step writes. That step isn't made.
    WriteFault,
}
