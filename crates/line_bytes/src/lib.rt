// The bytes of lines and names: UTF-8, returns and controls, the spaces at both ends, texts compared; and the refusals, kinds and limits, each number under its name.

#![tactic(auto)]

ghost use Rattle.std.specs.Prelude.{◌≡◌};
ghost use Rattle.line_bytes.specs.Spaces.{trim_span, IsPart};
ghost use Rattle.line_bytes.specs.Lines.{ill_formed, return_at, control_at};
ghost use Rattle.line_bytes.specs.Bytes.{equal};
ghost use Rattle.line_bytes.specs.Names.{is_name, parameter_length, begins_ctd};

pub mod kinds;
pub mod limits;
mod names;
pub mod refusals;
mod spaces;

// A part of the lent bytes, by place.
#[derive(Clone, Copy)]
pub struct Span {
    pub start: usize,
    pub len: usize,
}

// Where the first ill-formed UTF-8 sequence of a line starts.
pub fn ill_formed(line: &[u8]) -> Option<usize>
    ensures { result ≡ ill_formed line.now }
{
    let rows = utf8::table();
    let mut i = 0;
    // By hand: a step is as long as the character there.
    while i < line.len() {
        let n = utf8::character(&rows, &line[i..]);
        if n == 0 {
            return Some(i);
        }
        i += n;
    }
    None
}

// The first byte 0D of a line.
#[tactic(auto, unfolding(crate::specs::Lines::return_at))]
pub fn first_return(line: &[u8]) -> Option<usize>
    ensures { result ≡ return_at line.now }
{
    line.iter().position(|&x| x == 0x0d)
}

// The first byte of a line that is below 20 or equals 7F.
#[tactic(auto, unfolding(crate::specs::Lines::control_at))]
pub fn first_control(line: &[u8]) -> Option<usize>
    ensures { result ≡ control_at line.now }
{
    line.iter().position(|&x| x < 0x20 || x == 0x7f)
}

// The bytes from a to e without the spaces at both ends, as a part of the lent bytes themselves.
pub fn trimmed(s: &[u8], a: usize, e: usize) -> &[u8]
    ensures { IsPart s.entry result (trim_span s.now a e) }
{
    let Span { start, len } = trim_span(s, a, e);
    &s[start..start + len]
}

// Where they stand.
pub fn trim_span(s: &[u8], a: usize, e: usize) -> Span
    ensures { result ≡ trim_span s.now a e }
{
    let Some(t) = s.get(a..e) else {
        return Span { start: 0, len: 0 };
    };
    let end = t.len() - spaces::at_end(t);
    let start = spaces::in_front(&t[..end]);
    Span {
        start: a + start,
        len: end - start,
    }
}

// Whether two texts have the same bytes: `==`, by the specs' word for it.
#[tactic(auto, using(crate::proofs::EqualLaws::equal_told))]
pub fn same<'a>(x: &'a [u8], y: &'a [u8]) -> bool
    ensures { result ≡ equal x.now y.now }
{
    x == y
}

// Whether a text is a column or header name by its bytes.
#[tactic(auto, using(crate::proofs::EveryLaws::every_listed), unfolding(crate::specs::Names::is_name))]
pub fn is_name(t: &[u8]) -> bool
    ensures { result ≡ is_name t.now }
{
    !t.is_empty() && names::all_name_bytes(t)
}

// How many bytes of a flag column's name are its parameter's; 0 where the name is no flag column's, and no Option, as the definition has it.
pub fn parameter_length(t: &[u8]) -> usize
    ensures { result ≡ parameter_length t.now }
{
    match t.strip_suffix(b"_FLAG_W") {
        Some(parameter) => parameter.len(),
        None => 0,
    }
}

// Whether a parameter has the CTD flags.
pub fn begins_ctd(t: &[u8]) -> bool
    ensures { result ≡ begins_ctd t.now }
{
    t.starts_with(b"CTD")
}
