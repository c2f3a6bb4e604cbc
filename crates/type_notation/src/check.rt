ghost use Rattle.std.specs.Prelude.{◌≡◌, ◌+◌, ◌≤◌, length};
ghost use Rattle.reading.specs.Reading.{Answer};
ghost use Rattle.type_notation.specs.Shapes.{TypeEnd, Nests};
ghost use Rattle.type_notation.specs.TypeTexts.{TypeForm, type_fits};
ghost use Rattle.types.specs.Model.{Ty};

use crate::shape::shape_at;
use reading::Fault;

// The most characters that a type may have, and how deep it may nest.
const LENGTH_LIMIT: usize = 16;

const DEPTH_LIMIT: usize = 4;

// Whether the text is a type.
pub fn check_type(s: &[u8]) -> Result<(), Fault>
    ensures { Answer TypeForm type_fits (λ _ _. Unit {0}) s.now result }
{
    let end = type_end(s).map_err(|byte| Fault::Syntax { byte })?;
    if end < s.len() {
        return Err(Fault::Syntax { byte: end });
    }
    if !keeps_limits(s) {
        return Err(Fault::Limit);
    }
    Ok(())
}

// Whether the type that is written so keeps its limits.
fn keeps_limits(s: &[u8]) -> bool
    ensures { (t : Ty) → TypeForm t s.now → result ≡ type_fits t }
{
    s.len() <= LENGTH_LIMIT && deepest(s, 0, 1).depth <= DEPTH_LIMIT
}

// The place after the type that the text begins with; else the place of the first wrong byte. A loop, since a text may nest
// as deep as it is long.
fn type_end(s: &[u8]) -> Result<usize, usize>
    ensures { TypeEnd s.now result }
{
    // how many types are still due, in a width that no text overflows
    let mut due: u128 = 1;
    let mut i = 0;
    while due > 0 {
        let (shape, end) = shape_at(s, i)?;
        due = due - 1 + u128::from(shape.arity());
        i = end;
    }
    Ok(i)
}

// How deep types nest, and the place after them.
#[derive(Clone, Copy)]
struct Nesting {
    depth: usize,
    end: usize,
}

// The deepest of `count` types that stand at a place.
fn deepest(s: &[u8], at: usize, count: u8) -> Nesting
    ensures bound { result.depth + at ≤ result.end }
    ensures high { at ≤ length s.now → result.end ≤ length s.now }
    ensures nests { Nests s.now at count result.depth result.end }
{
    let mut nesting = Nesting { depth: 0, end: at };
    for _ in 0..count {
        let Ok((shape, middle)) = shape_at(s, nesting.end) else {
            return nesting;
        };
        let inner = deepest(s, middle, shape.arity());
        nesting = Nesting {
            depth: nesting.depth.max(inner.depth + 1),
            end: inner.end,
        };
    }
    nesting
}
