ghost use Rattle.std.specs.Prelude.{◌≡◌, Decides};
ghost use Rattle.std.specs.Cmp.{eq_by_cmp_equiv, on_total, partial_equiv_from_equiv, partial_order_from_total};
ghost use Rattle.std.specs.Cmp.Lexicographic.{slice_cmp};
ghost use Rattle.std.specs.Ordering.{as_partial_cmp, eq_by_cmp, on};
ghost use Rattle.value_model.proofs.Ordered.{cmp_total};
ghost use Rattle.values.specs.Means.{val};
ghost use Rattle.value_model.specs.Order.{cmp, Lawful};

use crate::value::Value;
use std::cmp::Ordering;

impl Value {
    // The order of values, as `cmp` has it, with its laws. Not inlined, nor is `equals`, so that no caller takes in the whole of `cmp`.
    #[inline(never)]
    pub fn compare(&self, other: &Value) -> Ordering
        ensures value { result ≡ cmp (val self.now) (val other.now) }
        ensures lawful { Lawful }
    {
        self.cmp(other)
    }

    // Whether both are the same value.
    #[inline(never)]
    pub fn equals(&self, other: &Value) -> bool
        ensures { Decides result (val self.now ≡ val other.now) }
    {
        self == other
    }
}

impl PartialEq for Value {
    ghost eq = { eq_by_cmp (on val cmp) };

    ghost laws = { partial_equiv_from_equiv (eq_by_cmp_equiv (on_total val cmp_total)) };

    #[cycle(order)]
    fn eq(&self, other: &Value) -> bool {
        self.cmp(other).is_eq()
    }
}

impl Eq for Value {
    ghost laws = { eq_by_cmp_equiv (on_total val cmp_total) };
}

impl PartialOrd for Value {
    ghost partial_cmp = { as_partial_cmp (on val cmp) };

    ghost laws = { partial_order_from_total (on_total val cmp_total) };

    #[cycle(order)]
    fn partial_cmp(&self, other: &Value) -> Option<Ordering> {
        Some(self.cmp(other))
    }
}

// The order of values: numbers from the lowest up, others by their first part that differs; of different kinds, by kind. By hand, since a
// derive says of a type that contains itself nothing that a proof could cite. Inlined, so that a row's loop calls nothing for a number.
impl Ord for Value {
    ghost cmp = { on val cmp };

    ghost total = { on_total val cmp_total };

    ghost matches_partial_cmp = { λ v w. λ i. as_partial_cmp (on val cmp) v w };

    ghost matches_eq = { λ v w. λ i. eq_by_cmp (on val cmp) v w };

    #[cycle(order)]
    #[inline(always)]
    fn cmp(&self, other: &Value) -> Ordering {
        match self {
            Value::Number(m) => match other {
                Value::Number(n) => m.cmp(n),
                Value::Text(_) | Value::Compound(_) | Value::List(_) | Value::Table(_) =>
                    Ordering::Less,
            },
            Value::Text(s) => match other {
                Value::Number(_) => Ordering::Greater,
                Value::Text(t) => order_of_rows(s, t),
                Value::Compound(_) | Value::List(_) | Value::Table(_) => Ordering::Less,
            },
            Value::Compound(r) => match other {
                Value::Number(_) | Value::Text(_) => Ordering::Greater,
                Value::Compound(q) => order_of_rows(r, q),
                Value::List(_) | Value::Table(_) => Ordering::Less,
            },
            Value::List(r) => match other {
                Value::Number(_) | Value::Text(_) | Value::Compound(_) => Ordering::Greater,
                Value::List(q) => order_of_rows(r, q),
                Value::Table(_) => Ordering::Less,
            },
            Value::Table(p) => match other {
                Value::Number(_) | Value::Text(_) | Value::Compound(_) | Value::List(_) =>
                    Ordering::Greater,
                Value::Table(q) => order_of_rows(p, q),
            },
        }
    }
}

// By the first items that differ, and else by the lengths. Not inlined, so that a number pays for no loop.
#[inline(never)]
fn order_of_rows<T: Ord>(a: &Vec<T>, b: &Vec<T>) -> Ordering
    ensures { result ≡ slice_cmp T.cmp a.now.items b.now.items }
{
    a.cmp(b)
}
