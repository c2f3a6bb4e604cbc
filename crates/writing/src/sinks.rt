ghost use Rattle.std.specs.List.{fold};
ghost use Rattle.std.specs.Prelude.{◌≡◌, ℕ, ◌∷◌};
ghost use Rattle.notation.specs.Texts.{inner};
ghost use Rattle.writing.specs.declared.sinks.Area.{Area};
ghost use Rattle.writing.specs.Sinks.{counted, filled, holding, Takes};

// What takes the bytes of a display.
pub(crate) trait Sink {
    // what the sink is after one byte more
    ghost after: { Self → ℕ → Self };

    fn put_all(&mut self, bytes: &[u8])
        ensures { self.new ≡ fold after self.old bytes.now };

    // Takes a text between its quotes, each single quote and back quote in it doubled. A method of its own, since a call for each
    // code takes twice the time.
    fn put_text(&mut self, codes: &[u8])
        ensures { Takes after self.old (λ rest. 39 ∷ inner codes.now (39 ∷ rest)) self.new };
}

// A count of bytes, as far as a word counts.
#[derive(Drop)]
pub(crate) struct Count {
    pub(crate) bytes: usize,
}

impl Sink for Count {
    ghost after = { counted };

    fn put_all(&mut self, bytes: &[u8]) {
        self.bytes = self.bytes.saturating_add(bytes.len());
    }

    fn put_text(&mut self, codes: &[u8]) {
        let mut length: usize = 0;
        for &code in codes {
            length += if code == b'\'' || code == b'`' { 2 } else { 1 };
        }
        self.bytes = self.bytes.saturating_add(length).saturating_add(2);
    }
}

// An area of bytes, with the place of the next; it takes no byte beyond its end.
#[derive(Drop)]
pub(crate) struct Area<'a> {
    pub(crate) bytes: &'a mut [u8],
    pub(crate) at: usize,
}

impl Sink for Area<'_> {
    ghost after = { filled };

    fn put_all(&mut self, bytes: &[u8]) {
        self.at = fill(self.bytes, self.at, bytes);
    }

    fn put_text(&mut self, codes: &[u8]) {
        self.at = fill_text(self.bytes, self.at, codes);
    }
}

// Fills an area from a place on, as far as there is room. Answers the next place. The place is a parameter, so that a loop has it
// in a register.
fn fill(area: &mut [u8], at: usize, bytes: &[u8]) -> usize
    ensures { (a : Area) → holding a area.new result ≡ fold filled (holding a area.old at) bytes.now }
{
    let mut next = at;
    for &byte in bytes {
        next = fill_one(area, next, byte);
    }
    next
}

fn fill_text(area: &mut [u8], at: usize, codes: &[u8]) -> usize
    ensures { (a : Area) → Takes filled (holding a area.old at) (λ rest. 39 ∷ inner codes.now (39 ∷ rest)) (holding a area.new result) }
{
    let mut next = fill_one(area, at, b'\'');
    for &code in codes {
        next = fill_one(area, next, code);
        if code == b'\'' || code == b'`' {
            next = fill_one(area, next, code);
        }
    }
    fill_one(area, next, b'\'')
}

fn fill_one(area: &mut [u8], at: usize, byte: u8) -> usize
    ensures { (a : Area) → holding a area.new result ≡ filled (holding a area.old at) byte }
{
    if at < area.len() {
        area[at] = byte;
        at + 1
    } else {
        at
    }
}
