ghost use Rattle.tables.specs.Entries.{Entry as Keyed, by_key, by_entry, entry_of, keyed};
ghost use Rattle.values.specs.Means.{val};

use search::Sought;
use std::cmp::Ordering;
use values::{Entry, Value};

// A key that is sought: the place of its entry, whatever the associate.
#[derive(Drop)]
pub struct ByKey<'k> {
    pub key: &'k Value,
}

impl Sought<Entry> for ByKey<'_> {
    ghost Key = { Keyed };

    ghost compares = { by_key };

    ghost key = { entry_of };

    ghost sought = { λ s. keyed (val s.key.now) };

    fn compare(&self, item: &Entry) -> Ordering {
        item.key.cmp(self.key)
    }
}

// An entry that is sought, key and associate, among entries that may share a key.
#[derive(Drop)]
pub struct ByEntry<'e> {
    pub entry: &'e Entry,
}

impl Sought<Entry> for ByEntry<'_> {
    ghost Key = { Keyed };

    ghost compares = { by_entry };

    ghost key = { entry_of };

    ghost sought = { λ s. entry_of s.entry.now };

    fn compare(&self, item: &Entry) -> Ordering {
        item.cmp(self.entry)
    }
}
