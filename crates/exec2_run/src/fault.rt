// Why a statement fails.
ghost use Rattle.std.specs.Prelude.{◌≡◌};
ghost use Rattle.exec2_run.specs.Faults.{number_of_fault};

use exec2_funcs::FuncFault;
use exec2_parse::ExpandFault;
use std::alloc::AllocError;

/// Why a statement fails: the first of its faults from the left.
#[derive(Clone, Copy)]
pub enum Fault {
    /// 1: a function doesn't take so many arguments.
    Arity,
    /// 2: a word in a number's place is no number, or outside the range of that place.
    NotNumber,
    /// 3: a number is outside signed 64 bits.
    Overflow,
    /// 4: a divisor is 0.
    Zero,
    /// 5: a word, a value or a text has more than 255 bytes.
    TooLong,
    /// 6: the statement has none of the forms of its kind.
    BadStatement,
    /// 7: no line has the label; of a range, no line below.
    NoLabel,
    /// 8: &RETURN where no &CALL is open.
    NoCall,
    /// 9: more than 100 loops or calls are open.
    TooDeep,
    /// 10: no &END follows.
    NoEnd,
    /// 11: a variable is set that is given.
    Given,
    /// 12: a line outside 1 to the last plus 1.
    OutsideLines,
    /// 13: the program stack has no room.
    StackFull,
    /// 14: more than 1,000 variables are set.
    TooManyVariables,
    /// There is no memory, which is no fault of a procedure.
    Memory,
}

impl Fault {
    /// The fault's number, 1 to 14; 0 of want of memory.
    pub fn number(self) -> u8
        ensures { result ≡ number_of_fault self }
    {
        match self {
            Fault::Arity => 1,
            Fault::NotNumber => 2,
            Fault::Overflow => 3,
            Fault::Zero => 4,
            Fault::TooLong => 5,
            Fault::BadStatement => 6,
            Fault::NoLabel => 7,
            Fault::NoCall => 8,
            Fault::TooDeep => 9,
            Fault::NoEnd => 10,
            Fault::Given => 11,
            Fault::OutsideLines => 12,
            Fault::StackFull => 13,
            Fault::TooManyVariables => 14,
            Fault::Memory => 0,
        }
    }
}

impl From<AllocError> for Fault {
    ghost use Rattle.std.specs.Prelude.{◌≡◌};
    ghost use Rattle.exec2_run.specs.declared.fault.Fault.TheVariants as fault;

    ghost from_gives = { λ _ e. e ≡ fault.Memory };

    fn from(_want: AllocError) -> Fault {
        Fault::Memory
    }
}

impl From<ExpandFault> for Fault {
    ghost use Rattle.std.specs.Prelude.{◌≡◌};
    ghost use Rattle.exec2_run.specs.Faults.{of_expansion};

    ghost from_gives = { λ f e. e ≡ of_expansion f };

    fn from(fault: ExpandFault) -> Fault {
        match fault {
            ExpandFault::TooLong => Fault::TooLong,
            ExpandFault::Memory => Fault::Memory,
        }
    }
}

impl From<FuncFault> for Fault {
    ghost use Rattle.std.specs.Prelude.{◌≡◌};
    ghost use Rattle.exec2_run.specs.Faults.{of_function};

    ghost from_gives = { λ f e. e ≡ of_function f };

    fn from(fault: FuncFault) -> Fault {
        match fault {
            FuncFault::Arity => Fault::Arity,
            FuncFault::NotNumber => Fault::NotNumber,
            FuncFault::Overflow => Fault::Overflow,
            FuncFault::Zero => Fault::Zero,
            FuncFault::TooLong => Fault::TooLong,
            FuncFault::Memory => Fault::Memory,
        }
    }
}
