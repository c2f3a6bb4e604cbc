ghost use Rattle.std.specs.Prelude.{◌≡◌, ℕ, ◌<◌, true, List, map};
ghost use Rattle.sheets.specs.Targets.{target_of, by_code, ascending};
ghost use Rattle.sheets.specs.Places.{FreePlace};

use crate::fault::SheetFault;
use crate::target::Target;
use search::{Sought, find};
use std::cmp::Ordering;

// The most targets that may be declared.
const TARGET_LIMIT: usize = 16;

// A name that is sought among targets.
#[derive(Clone, Copy)]
struct ByName<'n> {
    name: &'n [u8],
}

impl<'t> Sought<Target<'t>> for ByName<'_> {
    ghost Key = { List ℕ };

    ghost compares = { by_code };

    ghost key = { λ t. t.name.now };

    ghost sought = { λ s. s.name.now };

    fn compare(&self, item: &Target<'t>) -> Ordering {
        item.name.cmp(&self.name)
    }
}

// The place of a new name among the targets.
pub fn free_place(targets: &[Target], name: &[u8]) -> Result<usize, SheetFault>
    requires { ascending (map target_of targets.now) ≡ true }
    ensures { FreePlace (map target_of targets.now) name.now result }
{
    match find(targets, &ByName { name }) {
        Ok(_) => Err(SheetFault::Taken),
        Err(_) if targets.len() >= TARGET_LIMIT => Err(SheetFault::Full),
        Err(place) => Ok(place),
    }
}
