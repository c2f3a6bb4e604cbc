ghost use Rattle.values.specs.Means.{val};
ghost use Rattle.value_model.specs.Model.{Val};
ghost use Rattle.value_model.specs.Order.{cmp};

use search::Sought;
use std::cmp::Ordering;
use values::Value;

// A value sought among values.
#[derive(Drop)]
pub struct ByValue<'v> {
    pub value: &'v Value,
}

impl Sought<Value> for ByValue<'_> {
    ghost Key = { Val };

    ghost compares = { cmp };

    ghost key = { val };

    ghost sought = { λ s. val s.value.now };

    fn compare(&self, item: &Value) -> Ordering {
        item.compare(self.value)
    }
}
