ghost use Rattle.std.specs.Prelude.{◌≡◌, ◌≤◌, IfOk};
ghost use Rattle.type_notation.specs.Shapes.{Builds, BuildsAll};
ghost use Rattle.type_notation.specs.TypeTexts.{TypeForm};
ghost use Rattle.types.specs.Model.{Ty, ty_of, tys_of};

use crate::shape::{Shape, shape_at};
use std::alloc::{AllocError, Global};
use std::rc::Rc;
use types::{Sides, ValueType};

// The type that is written so. Whether the text is a type, and keeps the limits, is for `check_type` to say.
pub fn build_type(heap: Global, s: &[u8]) -> Result<ValueType, AllocError>
    ensures { IfOk result (λ t. (u : Ty) → TypeForm u s.now → ty_of t ≡ u) }
{
    let (built, _end) = type_at(heap, s, 0)?;
    Ok(built)
}

// The type that stands at a place, and the place after it.
#[cycle(type_at)]
fn type_at(heap: Global, s: &[u8], at: usize) -> Result<(ValueType, usize), AllocError>
    ensures { IfOk result (λ p. (at ≤ p.1) × Builds s.now at (ty_of p.0) p.1) }
{
    match shape_at(s, at) {
        Err(place) => Ok((ValueType::Number, place)),
        Ok((shape, middle)) => match shape {
            Shape::Number => Ok((ValueType::Number, middle)),
            Shape::Text => Ok((ValueType::Text, middle)),
            Shape::Compound(count) => {
                let (fields, end) = fields_at(heap, s, middle, count)?;
                Ok((ValueType::Compound(Rc::new(heap, fields)?), end))
            }
            Shape::List => {
                let (item, end) = type_at(heap, s, middle)?;
                Ok((ValueType::List(Rc::new(heap, item)?), end))
            }
            Shape::Table => {
                let (key, next) = type_at(heap, s, middle)?;
                let (associate, end) = type_at(heap, s, next)?;
                Ok((
                    ValueType::Table(Rc::new(heap, Sides { key, associate })?),
                    end,
                ))
            }
        },
    }
}

// The types that stand one after the other at a place, and the place after them.
#[cycle(type_at)]
fn fields_at(
    heap: Global,
    s: &[u8],
    at: usize,
    count: u8,
) -> Result<(Vec<ValueType>, usize), AllocError>
    ensures { IfOk result (λ p. (at ≤ p.1) × BuildsAll s.now at count (tys_of p.0.items) p.1) }
{
    let mut fields = Vec::new(heap);
    let mut end = at;
    for _ in 0..count {
        let (field, next) = type_at(heap, s, end)?;
        fields.push(field)?;
        end = next;
    }
    Ok((fields, end))
}
