ghost use Rattle.displays.specs.Nexts.{Opens, Goes, Parts};

use reading::{begins, expect};

// What stands next in a list or table: one more entry, or its end. Each with the place where it begins or where the row ended. Neither
// is a refusal or an absence, and `ControlFlow` would call them Continue and Break.
#[derive(Clone, Copy)]
pub enum Next {
    Entry(usize),
    End(usize),
}

// What stands behind the opening brace.
pub fn open_row(s: &[u8], at: usize) -> Result<Next, usize>
    ensures { Opens s.now at result }
{
    let inside = expect(s, at, b"{")?;
    if begins(s, inside, b'}') {
        return Ok(Next::End(inside + 1));
    }
    Ok(Next::Entry(inside))
}

// What stands behind an entry.
pub fn pass_entry(s: &[u8], at: usize) -> Result<Next, usize>
    ensures { Goes s.now at result }
{
    if begins(s, at, b'}') {
        return Ok(Next::End(at + 1));
    }
    Ok(Next::Entry(expect(s, at, b"; ")?))
}

// The place where a field of a compound begins: the first of them at once, another behind a comma and a blank.
pub fn begin_field(s: &[u8], at: usize, first: bool) -> Result<usize, usize>
    ensures { Parts s.now at first result }
{
    if first {
        return Ok(at);
    }
    expect(s, at, b", ")
}
