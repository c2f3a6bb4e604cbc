ghost use Rattle.std.specs.Prelude.{◌≡◌};
ghost use Rattle.sheets.specs.Lines.{split, three, fields_of};
ghost use Rattle.std.specs.Option.{option_map};

// The three fields of a line.
#[derive(Clone, Copy)]
pub struct Fields<'t> {
    pub name: &'t [u8],
    pub written_type: &'t [u8],
    pub display: &'t [u8],
}

// The fields of a line, parted by tabs, if there are three.
pub fn read_fields(line: &[u8]) -> Option<Fields<'_>>
    ensures { option_map fields_of result ≡ three (split 9 line.now) }
{
    let mut parts = line.split(|byte| *byte == b'\t');
    let fields = Fields {
        name: parts.next()?,
        written_type: parts.next()?,
        display: parts.next()?,
    };
    parts.next().is_none().then_some(fields)
}
