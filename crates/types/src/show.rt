ghost use Rattle.std.specs.Prelude.{if◌then◌else◌, Some, None};
ghost use Rattle.types.specs.Model.{ty_of};
ghost use Rattle.types.specs.Texts.{type_text, sound};

use crate::value_type::ValueType;
use std::fmt;

// A type as it is written, if each of its compounds has two to four fields.
impl fmt::Display for ValueType {
    ghost output = { λ t. (if sound (ty_of t) then Some (type_text (ty_of t)) else None) };

    fn fmt<W: fmt::Write>(&self, f: &mut fmt::Formatter<W>) -> fmt::Result {
        match self {
            ValueType::Number => f.write_str("n"),
            ValueType::Text => f.write_str("t"),
            ValueType::Compound(fields) => {
                write!(f, "c{}", fields.len())?;
                for field in fields.iter() {
                    field.fmt(f)?;
                }
                Ok(())
            }
            ValueType::List(item) => {
                f.write_str("l")?;
                (**item).fmt(f)
            }
            ValueType::Table(sides) => {
                f.write_str("b")?;
                sides.key.fmt(f)?;
                sides.associate.fmt(f)
            }
        }
    }
}
