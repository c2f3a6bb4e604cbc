ghost use Rattle.std.specs.Prelude.{◌≡◌};
ghost use Rattle.sequences.specs.Sequences.{counted};
ghost use Rattle.sequences.specs.Laws.{Counted};
ghost use Rattle.values.specs.Means.{val};

use values::Value;

// The number of characters of a text, or of entries of a list or table, as far as a word counts; nothing for another value.
pub fn count(value: &Value) -> Option<usize>
    ensures value { result ≡ counted (val value.now) }
    ensures law { Counted (val value.now) result }
{
    match value {
        Value::Number(_) | Value::Compound(_) => None,
        Value::Text(codes) => Some(codes.len()),
        Value::List(row) => Some(row.len()),
        Value::Table(entries) => Some(entries.len()),
    }
}
