ghost use Rattle.std.specs.Prelude.{◌≡◌, true, ◌<◌, ◌∷◌, ◌++◌, drop};
ghost use Rattle.notation.specs.Numbers.{nat, int};
ghost use Rattle.values.specs.Means.{val, vals, pairs};
ghost use Rattle.writing.specs.Displays.{parted, shown, shown_items, shown_entries};
ghost use Rattle.writing.specs.Sinks.{Takes};

use crate::sinks::Sink;
use values::{Entry, Value};

#[cycle(write)]
#[tactic(auto, using(values::proofs::Shared::val_compound, values::proofs::Shared::val_list, values::proofs::Shared::val_table))]
pub(crate) fn write_value<S: Sink>(sink: &mut S, value: &Value)
    ensures { Takes S.after sink.old (shown (val value.now)) sink.new }
{
    match value {
        Value::Number(n) => write_number(sink, *n),
        Value::Text(codes) => sink.put_text(codes),
        Value::Compound(row) => write_items(sink, row, b'(', b',', b')'),
        Value::List(row) => write_items(sink, row, b'{', b';', b'}'),
        Value::Table(entries) => write_entries(sink, entries),
    }
}

// Not inlined, so that numbers and texts are written without the frame that a loop needs.
#[cycle(write)]
#[inline(never)]
fn write_items<S: Sink>(sink: &mut S, row: &[Value], start: u8, sep: u8, close: u8)
    ensures { Takes S.after sink.old (λ rest. start ∷ shown_items (vals row.now) true sep close rest) sink.new }
{
    sink.put_all(&[start]);
    for (index, item) in row.iter().enumerate() {
        write_parting(sink, index == 0, sep);
        write_value(sink, item);
    }
    sink.put_all(&[close]);
}

// Beside `write_items`: one loop over a trait for both proves too, and is longer than the two.
#[cycle(write)]
#[inline(never)]
fn write_entries<S: Sink>(sink: &mut S, entries: &[Entry])
    ensures { Takes S.after sink.old (λ rest. 123 ∷ shown_entries (pairs entries.now) true rest) sink.new }
{
    sink.put_all(b"{");
    for (index, entry) in entries.iter().enumerate() {
        write_parting(sink, index == 0, b';');
        sink.put_all(b"[");
        write_value(sink, &entry.key);
        sink.put_all(b"]: ");
        write_value(sink, &entry.associate);
    }
    sink.put_all(b"}");
}

// What parts an item of a row from the one before.
fn write_parting<S: Sink>(sink: &mut S, first: bool, sep: u8)
    ensures { Takes S.after sink.old (parted first sep) sink.new }
{
    if !first {
        sink.put_all(&[sep, b' ']);
    }
}

fn write_number<S: Sink>(sink: &mut S, n: i32)
    ensures { Takes S.after sink.old (λ rest. int n ++ rest) sink.new }
{
    let mut buffer = [0; 11];
    let mut start = gather_digits(&mut buffer, n.unsigned_abs());
    if n < 0 {
        start -= 1;
        buffer[start] = b'-';
    }
    sink.put_all(&buffer[start..]);
}

// Puts the digits of a number at the end of a buffer, which has room for a sign too. Answers where they start.
fn gather_digits(buffer: &mut [u8; 11], n: u32) -> usize
    ensures starts { 0 < result }
    ensures digits { drop result buffer.new ≡ nat n }
{
    let mut start = 10;
    let mut front = n;
    while front >= 10 {
        buffer[start] = b'0' + (front % 10) as u8;
        front /= 10;
        start -= 1;
    }
    buffer[start] = b'0' + front as u8;
    start
}
