// The search along rows that are no slices, as linked rows and rows whose keys are computed: one search for them all.
// Promise: what is found along a slice, and the walk stops at the place that is told.
// The hard idea: a row is walked from its front by a trait, so that all that can be walked shares the one proof.

ghost use Rattle.std.specs.Prelude.{◌≡◌, List};
ghost use Rattle.std.specs.declared.cmp.Ordering.{Ordering as Comparison};
ghost use Rattle.search.specs.Search.{first, rest, Reached};

use std::cmp::Ordering;

// A walk along a row of keys, towards the place of one key.
pub trait Walk {
    // what a key means, and how two keys compare
    ghost Key: { Type 0 };

    ghost compares: { Key → Key → Comparison };

    // the key whose place is sought, and the keys not yet passed
    ghost sought: { Self → Key };

    ghost ahead: { Self → List Key };

    // How the next key compares with the one sought; nothing at the end of the row.
    fn next(&self) -> Option<Ordering>
        ensures { result ≡ first compares (sought self.now) (ahead self.now) };

    // Passes the next key, if there is one.
    fn pass(&mut self)
        ensures sought { sought self.new ≡ sought self.old }
        ensures ahead { ahead self.new ≡ rest (ahead self.old) };
}

// Where a key stands or would stand. A place past the last that a word can count is told as that last one.
#[derive(Clone, Copy)]
pub struct Place {
    pub index: usize,
    pub found: bool,
}

// Walks to the place of the key sought, and stops there.
#[tactic(auto, using(crate::proofs::Walked::onward_more, crate::proofs::Walked::shorter, crate::proofs::Walked::reached_at, crate::proofs::Walked::reached_end))]
pub fn find<W: Walk>(walk: &mut W) -> Place
    ensures place { Reached W.compares (W.sought walk.old) (W.ahead walk.old) result.index result.found (W.ahead walk.new) }
    ensures sought { W.sought walk.new ≡ W.sought walk.old }
{
    let mut index: usize = 0;
    loop {
        match walk.next() {
            Some(Ordering::Less) => {
                index = index.saturating_add(1);
                walk.pass();
            }
            Some(Ordering::Equal) => return Place { index, found: true },
            Some(Ordering::Greater) => return Place {
                index,
                found: false,
            },
            None => return Place {
                index,
                found: false,
            },
        }
    }
}
