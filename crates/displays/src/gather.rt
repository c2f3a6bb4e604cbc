ghost use Rattle.std.specs.Prelude.{OnOk, map};
ghost use Rattle.displays.specs.Gathered.{Added};
ghost use Rattle.displays.specs.Kinds.{made};

use crate::read::Reader;
use reading::Word;
use std::alloc::AllocError;
use values::{HasSize, SIZE_LIMIT};

// The items of a row that were read so far, in order, as long as they keep the limits; then no more are taken.
#[derive(Drop)]
pub struct Gathered<T> {
    pub items: Vec<T>,
    pub fits: bool,
}

impl<T: HasSize + Drop> Gathered<T> {
    // Takes one more item; an entry that was taken before is not taken again.
    pub fn add<R: Reader<T>>(&mut self, item: Word<T>) -> Result<(), AllocError>
        ensures { OnOk result (Added R.kind (made R.kind (map R.means self.old.items.items)) self.old.fits (R.means item.value) item.fits (made R.kind (map R.means self.new.items.items)) self.new.fits) }
    {
        self.fits = self.fits && item.fits;
        if self.fits {
            R::insert(&mut self.items, item.value)?;
            self.fits = self.items.size() < SIZE_LIMIT;
        }
        Ok(())
    }
}
