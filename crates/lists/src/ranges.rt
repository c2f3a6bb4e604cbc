ghost use Rattle.std.specs.Prelude.{◌≡◌, MatchResult};
ghost use Rattle.lists.specs.declared.ranges.RangeFault.TheVariants.{Memory};
ghost use Rattle.lists.specs.Ranges.{Numbered, Unranged};
ghost use Rattle.values.specs.Means.{vals};

use std::alloc::{AllocError, AllocFailed, Global};
use values::{SIZE_LIMIT, Value};

// Why there is no list of the numbers from one to another.
#[derive(Clone, Copy, Debug, Drop, PartialEq, Eq)]
pub enum RangeFault {
    // The first number is above the last by more than 1.
    Backward,
    // The list's size would pass the limit.
    TooLong,
    // There is no memory for it.
    Memory,
}

// Each error enum has its own two impls of want of memory: a derive of them has no `from_gives`, which the contracts of `?` rest on.
impl From<AllocError> for RangeFault {
    ghost from_gives = { λ _ f. f ≡ Memory };

    fn from(_e: AllocError) -> RangeFault {
        Self::Memory
    }
}

impl<T: Drop> From<AllocFailed<T>> for RangeFault {
    ghost from_gives = { λ _ f. f ≡ Memory };

    fn from(_e: AllocFailed<T>) -> RangeFault {
        RangeFault::from(AllocError)
    }
}

// The most numbers that a list may have: its size is one more.
const MOST_NUMBERS: i64 = SIZE_LIMIT as i64 - 1;

// The list of the numbers from the first to the last; empty if the first comes right after the last.
pub fn range(heap: Global, first: i32, last: i32) -> Result<Vec<Value>, RangeFault>
    ensures { MatchResult result (λ q. Numbered first last (vals q.items)) (Unranged first last) }
{
    let start = i64::from(first);
    let end = i64::from(last) + 1;
    if end < start {
        return Err(RangeFault::Backward);
    }
    if end - start > MOST_NUMBERS {
        return Err(RangeFault::TooLong);
    }
    let mut list = Vec::new(heap);
    for number in start..end {
        list.push(Value::Number(number as i32))?;
    }
    Ok(list)
}
