ghost use Rattle.std.specs.Prelude.{◌≡◌, ◌-◌, ◌^◌, ◌<◌, ◌≤◌, min, length, IfOk};
ghost use Rattle.types.specs.Model.{Ty};
ghost use Rattle.types.specs.Types.{Of};
ghost use Rattle.values.specs.Means.{val};
ghost use Rattle.writing.specs.Displays.{written};
ghost use Rattle.writing.specs.Writing.{WroteIf};

use crate::sinks::{Area, Count};
use crate::writer::write_value;
use std::alloc::{AllocError, Global};
use values::Value;

// How many bytes the display of a value has, as far as a word counts. Of a value of any type it has at most 3,325.
pub fn display_length(value: &Value) -> usize
    ensures value { result ≡ min (length (written (val value.now))) (2 ^ 64 - 1) }
    ensures short { (t : Ty) → Of t (val value.now) → result ≤ 3325 }
{
    let mut count = Count { bytes: 0 };
    write_value(&mut count, value);
    count.bytes
}

// Writes the display of a value into an area, from a place on. Answers the place after it, or nothing if there is no room.
pub fn write_display(out: &mut [u8], at: usize, value: &Value) -> Option<usize>
    ensures { WroteIf out.old out.new at (written (val value.now)) result }
{
    let length = display_length(value);
    if at > out.len() || length > out.len() - at {
        return None;
    }
    let mut area = Area { bytes: out, at };
    write_value(&mut area, value);
    Some(area.at)
}

// The display of a value, if a word can count its bytes; else there is no memory for it, and what is answered means nothing.
pub fn display(heap: Global, value: &Value) -> Result<Vec<u8>, AllocError>
    ensures { IfOk result (λ v. length (written (val value.now)) < 2 ^ 64 - 1 → v.items ≡ written (val value.now)) }
{
    let mut bytes = vec![in heap; 0; display_length(value)]?;
    let _ = write_display(&mut bytes, 0, value);
    Ok(bytes)
}
