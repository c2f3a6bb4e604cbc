ghost use Rattle.std.specs.Prelude.{◌≡◌, ◌+◌, ◌<◌, ◌≤◌, ◌∷◌, length, drop};
ghost use Rattle.reading.specs.Bytes.{Here};
ghost use Rattle.notation.specs.Digits.{DigitAt, GotNat, ReadNat, ReadNumber};
ghost use Rattle.notation.specs.Numbers.{NumberForm};
ghost use Rattle.reading.specs.Reading.{Answer};
ghost use Rattle.types.specs.Types.{bounded};

use reading::{Fault, Word, begins, byte_at};
use types::BOUND;

// The number that the text is.
pub fn read_number(s: &[u8]) -> Result<i32, Fault>
    ensures { Answer NumberForm bounded (λ z n. n ≡ z) s.now result }
{
    number_at(s, 0)
        .map_err(|byte| Fault::Syntax { byte })?
        .whole(s)
}

// The number that stands at a place, however long; else the place of the first byte that no number has there.
pub fn number_at(s: &[u8], at: usize) -> Result<Word<i32>, usize>
    ensures { ReadNumber s.now at result }
{
    if begins(s, at, b'-') {
        negative_at(s, at)
    } else {
        natural_at(s, at)
    }
}

fn negative_at(s: &[u8], at: usize) -> Result<Word<i32>, usize>
    requires { Here s.now at 45 }
    ensures { ReadNumber s.now at result }
{
    let next = at + 1;
    match digit_at(s, next) {
        None | Some(0) => Err(next),
        Some(first) => {
            let natural = digits_from(s, next + 1, first);
            Ok(Word {
                value: -natural.value,
                fits: natural.fits,
                end: natural.end,
            })
        }
    }
}

fn natural_at(s: &[u8], at: usize) -> Result<Word<i32>, usize>
    ensures { ReadNat s.now at result }
{
    match digit_at(s, at).ok_or(at)? {
        0 if digit_at(s, at + 1).is_some() => Err(at + 1),
        0 => Ok(Word {
            value: 0,
            fits: true,
            end: at + 1,
        }),
        first => Ok(digits_from(s, at + 1, first)),
    }
}

// The number whose first digit, not 0, stands before `at`. Past the bound the digits are only passed. One loop, which counts where they end: a count
// by the library's methods would go over them twice.
fn digits_from(s: &[u8], at: usize, first: u8) -> Word<i32>
    requires within { at ≤ length s.now }
    requires leading { 0 < first }
    requires digit { first < 10 }
    ensures low { at ≤ result.end }
    ensures high { result.end ≤ length s.now }
    ensures got { GotNat ((48 + first) ∷ drop at s.now) result.value result.fits (drop result.end s.now) }
{
    let mut value = i32::from(first);
    let mut fits = true;
    let mut end = at;
    for code in &s[at..] {
        if !code.is_ascii_digit() {
            break;
        }
        if fits && value <= BOUND / 10 {
            value = value * 10 + i32::from(code - b'0');
        } else {
            fits = false;
        }
        end += 1;
    }
    Word { value, fits, end }
}

fn digit_at(s: &[u8], at: usize) -> Option<u8>
    ensures { DigitAt s.now at result }
{
    let code = byte_at(s, at).filter(|code| code.is_ascii_digit())?;
    Some(code - b'0')
}
