ghost use Rattle.std.specs.Prelude.{◌≡◌};
ghost use Rattle.displays.specs.declared.fault.DisplayFault.TheVariants.{Syntax, Memory};
ghost use Rattle.displays.specs.Faults.{fault_of};

use reading::Fault;
use std::alloc::{AllocError, AllocFailed};

// Why a display is refused.
#[derive(Clone, Copy, PartialEq, Eq, Debug)]
pub enum DisplayFault {
    // Of no right form, limits aside: the longest beginning that some right form shares ends at this byte.
    Syntax { byte: usize },
    // Of a right form that passes a limit: a number's bounds, or the size.
    Limit,
    // Within the limits, but one key of a table has two different associates.
    Conflict,
    // There is no memory for it.
    Memory,
}

// From the place of the first wrong byte.
impl From<usize> for DisplayFault {
    ghost from_gives = { λ k f. f ≡ Syntax k };

    fn from(place: usize) -> DisplayFault {
        DisplayFault::Syntax { byte: place }
    }
}

impl From<Fault> for DisplayFault {
    ghost from_gives = { λ e f. f ≡ fault_of e };

    fn from(e: Fault) -> DisplayFault {
        match e {
            Fault::Syntax { byte } => DisplayFault::Syntax { byte },
            Fault::Limit => DisplayFault::Limit,
        }
    }
}

impl From<AllocError> for DisplayFault {
    ghost from_gives = { λ _ f. f ≡ Memory };

    fn from(_e: AllocError) -> DisplayFault {
        Self::Memory
    }
}

impl<T: Drop> From<AllocFailed<T>> for DisplayFault {
    ghost from_gives = { λ _ f. f ≡ Memory };

    fn from(_e: AllocFailed<T>) -> DisplayFault {
        DisplayFault::from(AllocError)
    }
}
