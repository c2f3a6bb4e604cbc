ghost use Rattle.std.specs.Prelude.{map};
ghost use Rattle.sheets.specs.Keeping.{Content, KeptLine};
ghost use Rattle.sheets.specs.Targets.{target_of, TypeIs, Whole};
ghost use Rattle.types.specs.Model.{Ty};

use crate::fault::SheetFault;
use crate::fields::{Fields, read_fields};
use crate::names::free_place;
use crate::target::Target;
use displays::read_display;
use notation::check_name;
use std::alloc::Global;
use type_notation::{build_type, check_type};
use values::Value;

// Declares the target of a line, and fills it. A line that is denied leaves the targets as they were. That they are in order and
// sound stands in the clauses: as the invariant of a struct it was tried, and the proof of a declaration did not close.
pub fn keep_line<'t>(
    heap: Global,
    targets: &mut Vec<Target<'t>>,
    line: &'t [u8],
) -> Result<(), SheetFault>
    requires { Whole (map target_of targets.old.items) }
    ensures { KeptLine (map target_of targets.old.items) line.now result (map target_of targets.new.items) }
{
    let fields = read_fields(line).ok_or(SheetFault::Fields)?;
    check_name(fields.name).map_err(SheetFault::Name)?;
    check_type(fields.written_type).map_err(SheetFault::WrittenType)?;
    let place = free_place(targets.as_slice(), fields.name)?;
    let content = read_content(heap, fields)?;
    targets.insert(
        place,
        Target {
            name: fields.name,
            written_type: fields.written_type,
            content,
        },
    )?;
    Ok(())
}

// The content whose display is the third field; none if that is empty.
fn read_content(heap: Global, fields: Fields) -> Result<Option<Value>, SheetFault>
    ensures { (y : Ty) → TypeIs y fields.entry.written_type.now → Content y fields.entry.display.now result }
{
    if fields.display.is_empty() {
        return Ok(None);
    }
    let expected = build_type(heap, fields.written_type)?;
    Ok(Some(read_display(heap, &expected, fields.display)?))
}
