ghost use Rattle.std.specs.Prelude.{◌≡◌, ◌-◌, ◌^◌, ◌<◌, IfOk, IfSome, MatchResult, slice_get};
ghost use Rattle.sequences.specs.Items.{items_in, left, Taken};
ghost use Rattle.sequences.specs.Laws.{ItemsTyped};
ghost use Rattle.sequences.specs.Sequences.{items_of, letter};
ghost use Rattle.std.specs.Option.{option_map};
ghost use Rattle.values.specs.Means.{val};

use std::alloc::{AllocError, Global};
use std::rc::Rc;
use values::Value;

// The items of a value that are left, to be taken in turn: all but the first `taken`.
#[derive(Drop)]
pub struct Items {
    // The value whose items they are, held by sharing.
    pub value: Value,
    // How many items at the front were taken.
    pub taken: usize,
}

impl Items {
    // The items of the value; nothing for a number or a compound.
    #[tactic(auto, using(crate::proofs::Typed::typed))]
    pub fn of(value: &Value) -> Result<Option<Items>, AllocError>
        ensures value { IfOk result (λ o. option_map left o ≡ items_of (val value.now)) }
        ensures law { IfOk result (λ o. ItemsTyped (val value.now) (option_map left o)) }
    {
        match value {
            Value::Number(_) | Value::Compound(_) => Ok(None),
            Value::Text(_) | Value::List(_) | Value::Table(_) => Ok(Some(Items {
                value: value.clone()?,
                taken: 0,
            })),
        }
    }

    // Takes the first item; nothing if none is left. Without memory the items stay as they are.
    pub fn next(&mut self, heap: Global) -> Result<Option<Value>, AllocError>
        ensures { MatchResult result (λ o. Taken (left self.old) (option_map val o) (left self.new)) (λ _. left self.new ≡ left self.old) }
    {
        let Some(item) = item_at(heap, &self.value, self.taken)? else {
            return Ok(None);
        };
        self.taken += 1;
        Ok(Some(item))
    }
}

// The item at an index, counted from 0; nothing if there is none.
fn item_at(heap: Global, value: &Value, index: usize) -> Result<Option<Value>, AllocError>
    ensures item { IfOk result (λ o. option_map val o ≡ slice_get (items_in (val value.now)) index) }
    ensures low { IfOk result (λ o. IfSome o (λ _. index < 2 ^ 64 - 1)) }
{
    match value {
        Value::Number(_) | Value::Compound(_) => Ok(None),
        Value::Text(codes) => codes.get(index).map(|code| letter(heap, *code)).transpose(),
        Value::List(row) => row.get(index).cloned(),
        Value::Table(entries) => entries.get(index).map(|entry| &entry.associate).cloned(),
    }
}

// The text of one character.
fn letter(heap: Global, code: u8) -> Result<Value, AllocError>
    ensures { IfOk result (λ v. val v ≡ letter code) }
{
    let mut codes = Vec::new(heap);
    codes.push(code)?;
    Ok(Value::Text(Rc::new(heap, codes)?))
}
