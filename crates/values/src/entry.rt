ghost use Rattle.std.specs.Prelude.{◌≡◌, ◌+◌};
ghost use Rattle.std.specs.Cmp.{eq_by_cmp_equiv, partial_equiv_from_equiv, partial_order_from_total};
ghost use Rattle.std.specs.Ordering.{as_partial_cmp, eq_by_cmp};
ghost use Rattle.value_model.specs.Sizes.{size};
ghost use Rattle.values.specs.Entries.{entry_cmp, entry_total};
ghost use Rattle.values.specs.Means.{val};

use crate::sizes::HasSize;
use crate::value::Entry;
use std::alloc::AllocError;
use std::cmp::Ordering;

// The same key with the same associate, sharing what is inside them. Inlined, so that a row's loop makes no call for an entry of numbers.
impl Clone for Entry {
    ghost is_clone = { λ d e. (val e.key ≡ val d.key) × (val e.associate ≡ val d.associate) };

    #[inline(always)]
    fn clone(&self) -> Result<Entry, AllocError> {
        Ok(Entry {
            key: self.key.clone()?,
            associate: self.associate.clone()?,
        })
    }
}

impl PartialEq for Entry {
    ghost eq = { eq_by_cmp entry_cmp };

    ghost laws = { partial_equiv_from_equiv (eq_by_cmp_equiv entry_total) };

    #[cycle(order)]
    fn eq(&self, other: &Entry) -> bool {
        self.cmp(other).is_eq()
    }
}

impl Eq for Entry {
    ghost laws = { eq_by_cmp_equiv entry_total };
}

impl PartialOrd for Entry {
    ghost partial_cmp = { as_partial_cmp entry_cmp };

    ghost laws = { partial_order_from_total entry_total };

    #[cycle(order)]
    fn partial_cmp(&self, other: &Entry) -> Option<Ordering> {
        Some(self.cmp(other))
    }
}

// Entries go by key, and then by associate.
impl Ord for Entry {
    ghost cmp = { entry_cmp };

    ghost total = { entry_total };

    ghost matches_partial_cmp = { λ d e. λ i. as_partial_cmp entry_cmp d e };

    ghost matches_eq = { λ d e. λ i. eq_by_cmp entry_cmp d e };

    #[cycle(order)]
    fn cmp(&self, other: &Entry) -> Ordering {
        match self.key.cmp(&other.key) {
            Ordering::Equal => self.associate.cmp(&other.associate),
            unequal => unequal,
        }
    }
}

impl HasSize for Entry {
    ghost size_of = { λ e. size (val e.key) + size (val e.associate) };

    #[cycle(sizes)]
    fn size(&self) -> usize {
        self.key.size().saturating_add(self.associate.size())
    }
}
