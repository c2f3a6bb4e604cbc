ghost use Rattle.std.specs.Prelude.{◌≡◌};
ghost use Rattle.values.specs.Means.{val};

use crate::value::Value;
use std::alloc::AllocError;

// The same value, sharing what is inside. By hand, since of a type that contains itself a derive says nothing.
impl Clone for Value {
    ghost is_clone = { λ v w. val w ≡ val v };

    fn clone(&self) -> Result<Value, AllocError> {
        match self {
            Value::Number(n) => Ok(Value::Number(*n)),
            Value::Text(codes) => Ok(Value::Text(codes.clone()?)),
            Value::Compound(row) => Ok(Value::Compound(row.clone()?)),
            Value::List(row) => Ok(Value::List(row.clone()?)),
            Value::Table(entries) => Ok(Value::Table(entries.clone()?)),
        }
    }
}
