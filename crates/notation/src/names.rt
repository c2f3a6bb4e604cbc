ghost use Rattle.std.specs.Prelude.{◌≡◌, ◌≤◌, length};
ghost use Rattle.std.specs.List.{prefix_len};
ghost use Rattle.notation.specs.Names.{name_code, name_front, name_fits, NameForm};
ghost use Rattle.reading.specs.Reading.{Answer};

use reading::Fault;

// The most characters that a name may have.
const LENGTH_LIMIT: usize = 16;

// Whether the text is a name.
pub fn check_name(s: &[u8]) -> Result<(), Fault>
    ensures { Answer NameForm name_fits (λ _ _. Unit {0}) s.now result }
{
    let byte = front(s);
    if byte == 0 || byte < s.len() {
        return Err(Fault::Syntax { byte });
    }
    if s.len() > LENGTH_LIMIT {
        return Err(Fault::Limit);
    }
    Ok(())
}

// How many bytes at the front are a name's.
fn front(s: &[u8]) -> usize
    ensures { result ≡ name_front s.now }
{
    match s {
        [first, rest @ ..] if first.is_ascii_lowercase() => 1 + run(rest),
        _ => 0,
    }
}

// How many bytes at the front are small letters, digits and single quotes.
fn run(s: &[u8]) -> usize
    ensures value { result ≡ prefix_len name_code s.now }
    ensures within { result ≤ length s.now }
{
    s.iter().take_while(|code| is_name_code(**code)).count()
}

fn is_name_code(code: u8) -> bool
    ensures { result ≡ name_code code }
{
    matches!(code, b'a'..=b'z' | b'0'..=b'9' | b'\'')
}
