ghost use Rattle.std.specs.Prelude.{◌≡◌, length, IfOk};
ghost use Rattle.notation.specs.Quotes.{Stands, ReadText, Unquotes};
ghost use Rattle.reading.specs.Reading.{Answer};
ghost use Rattle.notation.specs.Texts.{TextForm, text_fits};

use reading::{Fault, Word, begins, byte_at};
use std::alloc::{AllocError, Global};

// The most characters that a text may have.
const LENGTH_LIMIT: usize = 255;

// The number of characters of the text whose display this is.
pub fn check_text(s: &[u8]) -> Result<usize, Fault>
    ensures { Answer TextForm text_fits (λ t n. n ≡ length t) s.now result }
{
    text_at(s, 0)
        .map_err(|byte| Fault::Syntax { byte })?
        .whole(s)
}

// The number of characters of the text whose display stands at a place; else the place of the first wrong byte.
pub fn text_at(s: &[u8], at: usize) -> Result<Word<usize>, usize>
    ensures { ReadText s.now at result }
{
    if !begins(s, at, b'\'') {
        return Err(at);
    }
    let mut count = 0;
    let mut i = at + 1;
    while let Some((_, end)) = piece_at(s, i)? {
        count += 1;
        i = end;
    }
    Ok(Word {
        value: count,
        fits: count <= LENGTH_LIMIT,
        end: i + 1,
    })
}

// The codes of the text whose display stands at a place. It goes along the text as `text_at` does, without its fault: an iterator
// for both would have to keep the place and the fault, and would be longer than the two loops.
pub fn unquote(heap: Global, s: &[u8], at: usize) -> Result<Vec<u8>, AllocError>
    ensures { IfOk result (λ v. Unquotes s.now at v.items) }
{
    let mut codes = Vec::new(heap);
    if !begins(s, at, b'\'') {
        return Ok(codes);
    }
    let mut i = at + 1;
    while let Ok(Some((code, end))) = piece_at(s, i) {
        codes.push(code)?;
        i = end;
    }
    Ok(codes)
}

// What stands next in a text: a code with the place after it, or its end; else the place of the first byte that no text has there.
// Each quote has arms of its own: with one for both the loops over a text take twice as long.
fn piece_at(s: &[u8], i: usize) -> Result<Option<(u8, usize)>, usize>
    ensures { Stands s.now i result }
{
    let code = byte_at(s, i).ok_or(i)?;
    match code {
        b'\'' if begins(s, i + 1, b'\'') => Ok(Some((code, i + 2))),
        b'\'' => Ok(None),
        b'`' if begins(s, i + 1, b'`') => Ok(Some((code, i + 2))),
        b'`' => Err(i + 1),
        b' '..=b'~' => Ok(Some((code, i + 1))),
        _ => Err(i),
    }
}
