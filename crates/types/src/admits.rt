ghost use Rattle.std.specs.Prelude.{◌≡◌};
ghost use Rattle.types.specs.Model.{ty_of, tys_of};
ghost use Rattle.types.specs.Types.{of, formed, each_formed, all_formed, pairs_formed, ascending, ascending_keys, bounded, printable, printables};
ghost use Rattle.values.specs.Means.{val, vals, pairs};

use crate::value_type::{Sides, ValueType};
use values::{Entry, Value};

// The highest number; the lowest is its opposite.
pub const BOUND: i32 = 999_999_999;

impl ValueType {
    // Whether the value is one of this type.
    pub fn admits(&self, value: &Value) -> bool
        ensures { result ≡ of (ty_of self.now) (val value.now) }
    {
        value.fits() && is_formed(value, self)
    }
}

#[cycle(formed)]
fn is_formed(value: &Value, expected: &ValueType) -> bool
    ensures { result ≡ formed (val value.now) (ty_of expected.now) }
{
    match value {
        Value::Number(n) => match expected {
            ValueType::Number => is_bounded(*n),
            ValueType::Text | ValueType::Compound(_) | ValueType::List(_) | ValueType::Table(_) =>
                false,
        },
        Value::Text(codes) => match expected {
            ValueType::Text => are_printable(codes.as_slice()),
            ValueType::Number | ValueType::Compound(_) | ValueType::List(_) | ValueType::Table(_) =>
                false,
        },
        Value::Compound(row) => match expected {
            ValueType::Compound(fields) => is_each_formed(row, fields),
            ValueType::Number | ValueType::Text | ValueType::List(_) | ValueType::Table(_) => false,
        },
        Value::List(row) => match expected {
            ValueType::List(item) => is_ascending(row) && are_all_formed(row, item),
            ValueType::Number | ValueType::Text | ValueType::Compound(_) | ValueType::Table(_) =>
                false,
        },
        Value::Table(entries) => match expected {
            ValueType::Table(sides) => has_ascending_keys(entries)
                && are_pairs_formed(entries, sides),
            ValueType::Number | ValueType::Text | ValueType::Compound(_) | ValueType::List(_) =>
                false,
        },
    }
}

// This loop and those below are not inlined, so that a number pays for none.
#[cycle(formed)]
#[inline(never)]
fn is_each_formed(row: &[Value], fields: &[ValueType]) -> bool
    ensures { result ≡ each_formed (vals row.now) (tys_of fields.now) }
{
    if row.len() != fields.len() {
        return false;
    }
    for (value, field) in row.iter().zip(fields) {
        if !is_formed(value, field) {
            return false;
        }
    }
    true
}

#[cycle(formed)]
#[inline(never)]
fn are_all_formed(row: &[Value], item: &ValueType) -> bool
    ensures { result ≡ all_formed (vals row.now) (ty_of item.now) }
{
    for value in row {
        if !is_formed(value, item) {
            return false;
        }
    }
    true
}

// Beside `are_all_formed`: what an item has to be is one type there and two here, and a trait for both would be longer than the loops.
#[cycle(formed)]
#[inline(never)]
fn are_pairs_formed(entries: &[Entry], sides: &Sides) -> bool
    ensures { result ≡ pairs_formed (pairs entries.now) (ty_of sides.now.key) (ty_of sides.now.associate) }
{
    for entry in entries {
        if !is_formed(&entry.key, &sides.key) || !is_formed(&entry.associate, &sides.associate) {
            return false;
        }
    }
    true
}

fn is_bounded(n: i32) -> bool
    ensures { result ≡ bounded n }
{
    (-BOUND..=BOUND).contains(&n)
}

fn are_printable(codes: &[u8]) -> bool
    ensures { result ≡ printables codes.now }
{
    for c in codes {
        if !is_printable(*c) {
            return false;
        }
    }
    true
}

// Whether a text may have the character.
fn is_printable(code: u8) -> bool
    ensures { result ≡ printable code }
{
    matches!(code, 32..=126)
}

// Whether each value is at most the next.
fn is_ascending(row: &[Value]) -> bool
    ensures { result ≡ ascending (vals row.now) }
{
    row.is_sorted()
}

// Whether each key is below the next.
fn has_ascending_keys(entries: &[Entry]) -> bool
    ensures { result ≡ ascending_keys (pairs entries.now) }
{
    match entries {
        [] => true,
        [entry, rest @ ..] => match rest {
            [] => true,
            [next, ..] => entry.key < next.key && has_ascending_keys(rest),
        },
    }
}
