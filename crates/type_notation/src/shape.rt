ghost use Rattle.std.specs.Prelude.{◌≡◌};
ghost use Rattle.type_notation.specs.Shapes.{CountAt, ShapeAt, arity};

use reading::byte_at;

// What a type begins with; a compound has the number of its fields.
#[derive(Clone, Copy)]
pub enum Shape {
    Number,
    Text,
    Compound(u8),
    List,
    Table,
}

impl Shape {
    // How many types follow.
    pub fn arity(self) -> u8
        ensures { result ≡ arity self }
    {
        match self {
            Shape::Number | Shape::Text => 0,
            Shape::Compound(count) => count,
            Shape::List => 1,
            Shape::Table => 2,
        }
    }
}

// The shape that stands at a place, and the place after it; else the place of the first byte that no type has there.
pub fn shape_at(s: &[u8], at: usize) -> Result<(Shape, usize), usize>
    ensures { ShapeAt s.now at result }
{
    match byte_at(s, at).ok_or(at)? {
        b'n' => Ok((Shape::Number, at + 1)),
        b't' => Ok((Shape::Text, at + 1)),
        b'c' => {
            let count = count_at(s, at + 1).ok_or(at + 1)?;
            Ok((Shape::Compound(count), at + 2))
        }
        b'l' => Ok((Shape::List, at + 1)),
        b'b' => Ok((Shape::Table, at + 1)),
        _ => Err(at),
    }
}

// The number of fields, 2 to 4, at a place.
fn count_at(s: &[u8], at: usize) -> Option<u8>
    ensures { CountAt s.now at result }
{
    match byte_at(s, at)? {
        digit @ b'2'..=b'4' => Some(digit - b'0'),
        _ => None,
    }
}
