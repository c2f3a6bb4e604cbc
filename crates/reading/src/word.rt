ghost use Rattle.std.specs.Prelude.{◌≡◌, length, if◌then◌else◌, Ok, Err, nat_lt};
ghost use Rattle.reading.specs.declared.fault.Fault.TheVariants.{Syntax, Limit};

use crate::fault::Fault;

// A word that was read: what it is, whether it keeps its limits, and the place after it.
#[derive(Drop)]
pub struct Word<T> {
    pub value: T,
    pub fits: bool,
    pub end: usize,
}

impl<T: Drop> Word<T> {
    // The word, if it is the whole of the text and keeps its limits.
    pub fn whole(self, s: &[u8]) -> Result<T, Fault>
        ensures { result ≡ (if nat_lt self.end (length s.now) then Err (Syntax self.end) else (if self.fits then Ok self.value else Err Limit)) }
    {
        if self.end < s.len() {
            return Err(Fault::Syntax { byte: self.end });
        }
        if !self.fits {
            return Err(Fault::Limit);
        }
        Ok(self.value)
    }
}
