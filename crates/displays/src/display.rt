ghost use Rattle.std.specs.Prelude.{◌≡◌};
ghost use Rattle.displays.specs.Reads.{Meant, Admitted, ReadAs};
ghost use Rattle.types.specs.Model.{ty_of};
ghost use Rattle.types.specs.Types.{Of};
ghost use Rattle.value_model.specs.Model.{Val};
ghost use Rattle.writing.specs.Displays.{written};

use crate::fault::DisplayFault;
use crate::read::Reader;
use std::alloc::Global;
use types::ValueType;
use values::Value;

// The value of the type whose display is the text. Entries of a list or table may stand in any order, and the same entry of a
// table more than once: the value has them in order, and once.
pub fn read_display(heap: Global, expected: &ValueType, s: &[u8]) -> Result<Value, DisplayFault>
    ensures value { Meant (ty_of expected.now) s.now result }
    ensures typed { Admitted (ty_of expected.now) result }
    ensures inverse { (v : Val) → Of (ty_of expected.now) v → written v ≡ s.now → ReadAs v result }
{
    let value = expected.read_at(heap, s, 0)?.whole(s)?;
    // within the limits, only a key with two associates keeps a value from being of its type
    if !expected.admits(&value) {
        return Err(DisplayFault::Conflict);
    }
    Ok(value)
}
