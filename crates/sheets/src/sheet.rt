ghost use Rattle.std.specs.Prelude.{map, vec_items};
ghost use Rattle.sheets.specs.Keeping.{ReadSheet};
ghost use Rattle.sheets.specs.Sheets.{Settles};
ghost use Rattle.sheets.specs.Targets.{target_of};
ghost use Rattle.std.specs.Result.{result_map_both};

use crate::fault::SheetFault;
use crate::keep::keep_line;
use crate::target::Target;
use crate::write::write_sheet;
use std::alloc::Global;

// The most bytes that the input may have.
pub const INPUT_LIMIT: usize = 32_768;

// The sheet that the input begins with, in order of name and with its contents in order. It ends at the first empty line;
// what follows that is left alone.
pub fn settle(heap: Global, input: &[u8]) -> Result<Vec<u8>, SheetFault>
    ensures { Settles input.now (result_map_both vec_items (λ f. f) result) }
{
    if input.len() > INPUT_LIMIT {
        return Err(SheetFault::TooLong);
    }
    let targets = read_sheet(heap, input)?;
    Ok(write_sheet(heap, targets.as_slice())?)
}

// The targets of the lines before the first empty one.
fn read_sheet(heap: Global, input: &[u8]) -> Result<Vec<Target<'_>>, SheetFault>
    ensures { ReadSheet input.now (result_map_both (λ v. map target_of v.items) (λ f. f) result) }
{
    let mut targets = Vec::new(heap);
    for line in input
        .split(|byte| *byte == b'\n')
        .take_while(|line| !line.is_empty())
    {
        keep_line(heap, &mut targets, line)?;
    }
    Ok(targets)
}
