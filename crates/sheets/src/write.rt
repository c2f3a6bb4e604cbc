ghost use Rattle.std.specs.Prelude.{◌≡◌, ◌++◌, map, IfOk, OnOk};
ghost use Rattle.sheets.specs.Targets.{target_of, Sound, target_text, sheet_text};
ghost use Rattle.std.specs.List.{AllByRecursion};

use crate::target::Target;
use std::alloc::{AllocError, Global};
use writing::display;

// The text of a sheet: a line for each target.
pub fn write_sheet(heap: Global, targets: &[Target]) -> Result<Vec<u8>, AllocError>
    requires { AllByRecursion Sound (map target_of targets.now) }
    ensures { IfOk result (λ v. v.items ≡ sheet_text (map target_of targets.now)) }
{
    let mut out = Vec::new(heap);
    for target in targets {
        write_target(heap, &mut out, target)?;
    }
    Ok(out)
}

// Adds the line of a target.
fn write_target(heap: Global, out: &mut Vec<u8>, target: &Target) -> Result<(), AllocError>
    requires { Sound (target_of target.now) }
    ensures { OnOk result (out.new.items ≡ out.old.items ++ target_text (target_of target.now)) }
{
    out.extend_from_slice(target.name)?;
    out.push(b'\t')?;
    out.extend_from_slice(target.written_type)?;
    out.push(b'\t')?;
    if let Some(value) = &target.content {
        out.extend_from_slice(display(heap, value)?.as_slice())?;
    }
    out.push(b'\n')?;
    Ok(())
}
