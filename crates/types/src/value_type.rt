use std::rc::Rc;

// The type of a value. A compound has the types of its fields. What is inside a type is shared with its clones.
#[cycle(value_type)]
#[derive(Drop)]
pub enum ValueType {
    Number,
    Text,
    Compound(Rc<Vec<ValueType>>),
    List(Rc<ValueType>),
    Table(Rc<Sides>),
}

// The types of a table's keys and associates.
#[cycle(value_type)]
#[derive(Drop)]
pub struct Sides {
    pub key: ValueType,
    pub associate: ValueType,
}
