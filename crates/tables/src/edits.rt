ghost use Rattle.std.specs.Prelude.{◌≡◌, IfOk, OnOk, OnErr, MatchOption};
ghost use Rattle.std.specs.Option.{option_map};
ghost use Rattle.tables.specs.Laws.{Association, Deletion, NoKey, Addition};
ghost use Rattle.tables.specs.Tables.{associated, deleted, added};
ghost use Rattle.values.specs.Means.{val, pairs};

use crate::sought::{ByEntry, ByKey};
use lists::joined;
use search::find;
use std::alloc::{AllocError, Global};
use values::{Entry, Value};

// The table with that associate of the key, in place of the key's entry or as a new one.
pub fn put(
    heap: Global,
    entries: &[Entry],
    key: Value,
    associate: Value,
) -> Result<Vec<Entry>, AllocError>
    ensures value { IfOk result (λ q. pairs q.items ≡ associated (val key) (val associate) (pairs entries.now)) }
    ensures law { IfOk result (λ q. Association (val key) (val associate) (pairs entries.now) (pairs q.items)) }
{
    let entry = Entry { key, associate };
    let (from, to) = match find(entries, &ByKey { key: &entry.key }) {
        Ok(place) => (place, place + 1),
        Err(place) => (place, place),
    };
    let table = joined(heap, &entries[..from], Some(entry), &entries[to..])?;
    Ok(table)
}

// The table without the key's entry; nothing if the key does not stand.
pub fn delete(
    heap: Global,
    entries: &[Entry],
    key: &Value,
) -> Result<Option<Vec<Entry>>, AllocError>
    ensures value { IfOk result (λ o. option_map (λ q. pairs q.items) o ≡ deleted (val key.now) (pairs entries.now)) }
    ensures law { IfOk result (λ o. MatchOption o (NoKey (val key.now) (pairs entries.now)) (λ q. Deletion (val key.now) (pairs entries.now) (pairs q.items))) }
{
    match find(entries, &ByKey { key }) {
        Ok(place) => {
            let table = joined(heap, &entries[..place], None, &entries[place + 1..])?;
            Ok(Some(table))
        }
        Err(_) => Ok(None),
    }
}

// The entries with that of the key and associate among them, once, in order of key and then of associate.
pub fn add(
    heap: Global,
    entries: &[Entry],
    key: Value,
    associate: Value,
) -> Result<Vec<Entry>, AllocError>
    ensures value { IfOk result (λ q. pairs q.items ≡ added (val key) (val associate) (pairs entries.now)) }
    ensures law { IfOk result (λ q. Addition (val key) (val associate) (pairs entries.now) (pairs q.items)) }
{
    let entry = Entry { key, associate };
    match find(entries, &ByEntry { entry: &entry }) {
        Ok(_) => {
            let table = Vec::from_clones(heap, entries)?;
            Ok(table)
        }
        Err(place) => {
            let table = joined(heap, &entries[..place], Some(entry), &entries[place..])?;
            Ok(table)
        }
    }
}

// Puts the entry of the key and associate among the entries, in order of key and then of associate; where it stands nothing is done. It
// serves to read a table whose entries come in any order and perhaps more than once: there one key may have several associates.
pub fn add_to(entries: &mut Vec<Entry>, key: Value, associate: Value) -> Result<(), AllocError>
    ensures value { OnOk result (pairs entries.new.items ≡ added (val key) (val associate) (pairs entries.old.items)) }
    ensures law { OnOk result (Addition (val key) (val associate) (pairs entries.old.items) (pairs entries.new.items)) }
    ensures err { OnErr result (entries.new.items ≡ entries.old.items) }
{
    let entry = Entry { key, associate };
    match find(entries, &ByEntry { entry: &entry }) {
        Ok(_) => Ok(()),
        Err(place) => {
            entries.insert(place, entry)?;
            Ok(())
        }
    }
}
