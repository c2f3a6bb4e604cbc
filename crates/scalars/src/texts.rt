ghost use Rattle.std.specs.Prelude.{◌≡◌, ◌++◌, IfSome, IfOk, option_copied};
ghost use Rattle.scalars.specs.Texts.{suffix, prefix, KeepsBoth, KeepsPart};
ghost use Rattle.std.specs.Option.{option_map};
ghost use Rattle.values.specs.Means.{val};
ghost use Rattle.value_model.specs.Model.{text};

use std::alloc::{AllocError, Global};
use std::rc::Rc;
use values::Value;

// The text of the characters of one text and then of another.
pub fn join(heap: Global, a: &[u8], b: &[u8]) -> Result<Value, AllocError>
    ensures value { IfOk result (λ v. val v ≡ text (a.now ++ b.now)) }
    ensures law { IfOk result (λ v. KeepsBoth a.now b.now (val v)) }
{
    let mut codes = Vec::from_slice(heap, a)?;
    codes.extend_from_slice(b)?;
    text_of(heap, codes)
}

// The text from its first-th character on, counted from 1. From the place after the last it is empty, and from any other
// place there is nothing.
pub fn from(heap: Global, codes: &[u8], first: i32) -> Result<Option<Value>, AllocError>
    ensures value { IfOk result (λ o. option_map val o ≡ option_map text (suffix codes.now first)) }
    ensures law { IfOk result (λ o. IfSome o (λ v. KeepsPart codes.now (val v))) }
{
    part_text(heap, suffix(codes, first))
}

// The first `count` characters of the text; nothing unless it has as many.
pub fn upto(heap: Global, codes: &[u8], count: i32) -> Result<Option<Value>, AllocError>
    ensures value { IfOk result (λ o. option_map val o ≡ option_map text (prefix codes.now count)) }
    ensures law { IfOk result (λ o. IfSome o (λ v. KeepsPart codes.now (val v))) }
{
    part_text(heap, prefix(codes, count))
}

fn suffix(codes: &[u8], first: i32) -> Option<&[u8]>
    ensures { option_copied result ≡ suffix codes.now first }
{
    let passed = usize::try_from(first).ok()?.checked_sub(1)?;
    codes.get(passed..)
}

fn prefix(codes: &[u8], count: i32) -> Option<&[u8]>
    ensures { option_copied result ≡ prefix codes.now count }
{
    let kept = usize::try_from(count).ok()?;
    codes.get(..kept)
}

// The text of a part, if there is one.
fn part_text(heap: Global, part: Option<&[u8]>) -> Result<Option<Value>, AllocError>
    ensures { IfOk result (λ o. option_map val o ≡ option_map text (option_copied part.entry)) }
{
    part.map(|codes| text_of(heap, Vec::from_slice(heap, codes)?))
        .transpose()
}

fn text_of(heap: Global, codes: Vec<u8>) -> Result<Value, AllocError>
    ensures { IfOk result (λ v. val v ≡ text codes.items) }
{
    Ok(Value::Text(Rc::new(heap, codes)?))
}
