ghost use Rattle.std.specs.Prelude.{◌≡◌, ℕ, ◌+◌, ◌-◌, ◌^◌, min, nat_le};
ghost use Rattle.std.specs.List.{sum_by};
ghost use Rattle.value_model.specs.Sizes.{size};
ghost use Rattle.values.specs.Means.{val};

use crate::value::Value;

// The most that the size of a value may be.
pub const SIZE_LIMIT: usize = 256;

// What has a size, as far as a word counts it.
pub trait HasSize {
    ghost size_of: { Self → ℕ };

    fn size(&self) -> usize
        ensures { result ≡ min (size_of self.now) (2 ^ 64 - 1) };
}

// The sizes of the items together: `sizes` of a row of values and `pair_sizes` of one of entries, by `sizes_of` and `pair_sizes_of` of
// proofs/Shared. Not inlined, so that a number pays for no loop.
#[inline(never)]
pub fn size_of_row<T: HasSize>(row: &[T]) -> usize
    ensures { result ≡ min (sum_by T.size_of row.now) (2 ^ 64 - 1) }
{
    let mut total: usize = 0;
    for item in row {
        total = total.saturating_add(item.size());
    }
    total
}

impl<T: HasSize> HasSize for Vec<T> {
    ghost size_of = { λ v. sum_by T.size_of v.items };

    fn size(&self) -> usize {
        size_of_row(self)
    }
}

impl HasSize for Value {
    ghost size_of = { λ v. size (val v) };

    #[cycle(sizes)]
    fn size(&self) -> usize {
        Value::size(self)
    }
}

impl Value {
    // 1 for a number, 1 and its characters for a text, 1 and the sizes of its parts for any other value, as far as a word counts.
    #[cycle(sizes)]
    pub fn size(&self) -> usize
        ensures { result ≡ min (size (val self.now)) (2 ^ 64 - 1) }
    {
        match self {
            Value::Number(_) => 1,
            Value::Text(codes) => codes.len().saturating_add(1),
            Value::Compound(row) => row.size().saturating_add(1),
            Value::List(row) => row.size().saturating_add(1),
            Value::Table(entries) => entries.size().saturating_add(1),
        }
    }

    // Whether the size is within the limit.
    pub fn fits(&self) -> bool
        ensures { result ≡ nat_le (size (val self.now)) 256 }
    {
        self.size() <= SIZE_LIMIT
    }
}
