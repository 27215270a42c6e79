use super::Place;

/// Why a run failed.
#[derive(Clone, Copy, Debug, PartialEq, Eq)]
pub enum Cause {
    NotProcedure = 1,
    WrongArgs = 2,
    WrongType = 3,
    Overflow = 4,
    Range = 5,
    ZeroDivide = 6,
    Undefined = 7,
    TooMany = 8,
}

/// What was read: a byte, or that the input has ended.
#[derive(Clone, Copy, Debug, PartialEq, Eq)]
pub enum Taken {
    Byte(u8),
    End,
}

/// What can be seen of a run from outside. `Enter` carries the number of the lambda that is entered.
#[derive(Clone, Copy, Debug, PartialEq, Eq)]
pub enum Event {
    Enter(u32),
    Back,
    Put(u8),
    Took(Taken),
    End,
    Fail(Cause, Place),
}

/// Why a machine stopped. Pointers are word numbers, and `need` is in words. `pc` is the number of an
/// instruction on MAC and a byte address on SPARC.
#[derive(Clone, Copy, Debug, PartialEq, Eq)]
pub enum Stop {
    End,
    Fail(Cause, Place),
    Full { pointer: u32, stack: u32, need: u32 },
    Steps,
    Stuck { pc: u32 },
    ReadFault,
    WriteFault,
}
