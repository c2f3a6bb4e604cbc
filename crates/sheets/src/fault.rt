ghost use Rattle.std.specs.Prelude.{◌≡◌};
ghost use Rattle.sheets.specs.declared.fault.SheetFault.TheVariants.{Memory};
ghost use Rattle.sheets.specs.Numbers.{number, display_fault};

use displays::DisplayFault;
use reading::Fault;
use std::alloc::{AllocError, AllocFailed};

// Why a sheet is denied.
#[derive(Clone, Copy, PartialEq, Eq, Debug)]
pub enum SheetFault {
    // The input is longer than the limit.
    TooLong,
    // A line has other than three fields.
    Fields,
    // A name is wrong, or too long.
    Name(Fault),
    // A type is wrong, or passes a limit.
    WrittenType(Fault),
    // The name was declared before.
    Taken,
    // As many targets as may be are declared.
    Full,
    // A display is wrong, or passes a limit.
    Display(Fault),
    // In a display one key of a table has two different associates.
    Conflict,
    // There is no memory for it.
    Memory,
}

impl SheetFault {
    // The number of the denial; want of memory has none.
    pub fn number(self) -> Option<u8>
        ensures { result ≡ number self }
    {
        match self {
            SheetFault::TooLong => Some(2),
            SheetFault::Fields => Some(4),
            SheetFault::Name(fault) | SheetFault::WrittenType(fault) | SheetFault::Display(fault) =>
                match fault {
                    Fault::Syntax { .. } => Some(5),
                    Fault::Limit => Some(2),
                },
            SheetFault::Taken => Some(10),
            SheetFault::Full => Some(11),
            SheetFault::Conflict => Some(27),
            SheetFault::Memory => None,
        }
    }
}

impl From<DisplayFault> for SheetFault {
    ghost from_gives = { λ e f. f ≡ display_fault e };

    fn from(e: DisplayFault) -> SheetFault {
        match e {
            DisplayFault::Syntax { byte } => SheetFault::Display(Fault::Syntax { byte }),
            DisplayFault::Limit => SheetFault::Display(Fault::Limit),
            DisplayFault::Conflict => SheetFault::Conflict,
            DisplayFault::Memory => SheetFault::Memory,
        }
    }
}

impl From<AllocError> for SheetFault {
    ghost from_gives = { λ _ f. f ≡ Memory };

    fn from(_e: AllocError) -> SheetFault {
        Self::Memory
    }
}

impl<T: Drop> From<AllocFailed<T>> for SheetFault {
    ghost from_gives = { λ _ f. f ≡ Memory };

    fn from(_e: AllocFailed<T>) -> SheetFault {
        SheetFault::from(AllocError)
    }
}
