use std::rc::Rc;

// A value of any type. A text holds the codes of its characters. What is inside a value is shared with its clones.
#[cycle(value)]
#[derive(Drop)]
pub enum Value {
    Number(i32),
    Text(Rc<Vec<u8>>),
    Compound(Rc<Vec<Value>>),
    List(Rc<Vec<Value>>),
    Table(Rc<Vec<Entry>>),
}

// An entry of a table: a key with its associate.
#[cycle(value)]
#[derive(Drop)]
pub struct Entry {
    pub key: Value,
    pub associate: Value,
}
