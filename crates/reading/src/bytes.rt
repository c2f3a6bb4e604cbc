ghost use Rattle.std.specs.Prelude.{◌+◌, ◌<◌, MatchBool, MatchResult};
ghost use Rattle.reading.specs.Bytes.{Byte, Here, NotHere, Stands, Off};

// The byte at a place.
pub fn byte_at(s: &[u8], at: usize) -> Option<u8>
    ensures { Byte s.now at result }
{
    s.get(at).copied()
}

// Whether the byte stands at the place.
pub fn begins(s: &[u8], at: usize, byte: u8) -> bool
    ensures { MatchBool result (Here s.now at byte) (NotHere s.now at byte) }
{
    byte_at(s, at) == Some(byte)
}

// The place after the mark, if it stands at `at`; else the place of the first byte that is not the mark's.
pub fn expect(s: &[u8], at: usize, mark: &[u8]) -> Result<usize, usize>
    ensures { MatchResult result (Stands s.now at mark.now) (Off s.now at mark.now) }
{
    for (k, b) in mark.iter().enumerate() {
        if !begins(s, at + k, *b) {
            return Err(at + k);
        }
    }
    Ok(at + mark.len())
}
