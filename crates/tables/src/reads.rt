ghost use Rattle.std.specs.Prelude.{◌≡◌, IfOk};
ghost use Rattle.std.specs.Option.{option_map};
ghost use Rattle.tables.specs.Laws.{Selection, KeyList};
ghost use Rattle.tables.specs.Tables.{selected};
ghost use Rattle.value_model.specs.Rows.{keys};
ghost use Rattle.values.specs.Means.{val, vals, pairs};

use crate::sought::ByKey;
use search::find;
use std::alloc::{AllocError, Global};
use values::{Entry, Value};

// The associate of the key.
pub fn select<'e>(entries: &'e [Entry], key: &Value) -> Option<&'e Value>
    ensures value { option_map (λ x. val x.now) result ≡ selected (val key.now) (pairs entries.now) }
    ensures law { Selection (val key.now) (pairs entries.now) (option_map (λ x. val x.now) result) }
{
    let place = find(entries, &ByKey { key }).ok()?;
    Some(&entries[place].associate)
}

// The list of the keys.
pub fn keys(heap: Global, entries: &[Entry]) -> Result<Vec<Value>, AllocError>
    ensures value { IfOk result (λ q. vals q.items ≡ keys (pairs entries.now)) }
    ensures law { IfOk result (λ q. KeyList (pairs entries.now) (vals q.items)) }
{
    let mut row = Vec::new(heap);
    for entry in entries {
        row.push(entry.key.clone()?)?;
    }
    Ok(row)
}
