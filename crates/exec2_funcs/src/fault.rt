// Why a function has no value.
use std::alloc::AllocError;

/// Why a call of a function has no value. The number of arguments is tested first, then the arguments from left to right, the
/// length of the value last.
#[derive(Clone, Copy, Debug)]
pub enum FuncFault {
    /// The function doesn't take so many arguments.
    Arity,
    /// An argument in a number's place is no number, or outside the range of that place.
    NotNumber,
    /// A quotient or product doesn't fit in signed 64 bits.
    Overflow,
    /// A divisor is 0.
    Zero,
    /// The value has more than 255 bytes.
    TooLong,
    /// There is no memory.
    Memory,
}

impl From<AllocError> for FuncFault {
    ghost use Rattle.std.specs.Prelude.{◌≡◌};
    ghost use Rattle.exec2_funcs.specs.declared.fault.FuncFault.TheVariants as fault;

    ghost from_gives = { λ _ e. e ≡ fault.Memory };

    fn from(_want: AllocError) -> FuncFault {
        FuncFault::Memory
    }
}
