use values::Value;

// A declared target: its name and its type as they are written, and its content or none.
#[derive(Drop)]
pub struct Target<'t> {
    pub name: &'t [u8],
    pub written_type: &'t [u8],
    pub content: Option<Value>,
}
