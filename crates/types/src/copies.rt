ghost use Rattle.std.specs.Prelude.{◌≡◌};
ghost use Rattle.types.specs.Model.{ty_of};

use crate::value_type::ValueType;
use std::alloc::AllocError;

// The same type, sharing what is inside. By hand, since of a type that contains itself a derive says nothing.
impl Clone for ValueType {
    ghost is_clone = { λ t u. ty_of u ≡ ty_of t };

    fn clone(&self) -> Result<ValueType, AllocError> {
        match self {
            ValueType::Number => Ok(ValueType::Number),
            ValueType::Text => Ok(ValueType::Text),
            ValueType::Compound(fields) => Ok(ValueType::Compound(fields.clone()?)),
            ValueType::List(item) => Ok(ValueType::List(item.clone()?)),
            ValueType::Table(sides) => Ok(ValueType::Table(sides.clone()?)),
        }
    }
}
