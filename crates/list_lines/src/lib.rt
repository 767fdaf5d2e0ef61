// One line of a correction list: any bytes are read, and are its fields or malformed.

#![tactic(auto)]

ghost use Rattle.std.specs.Prelude.{◌≡◌};
ghost use Rattle.line_bytes.specs.Spaces.{IsPart};
ghost use Rattle.orders.specs.ListLines.{line_read};

mod fields;

pub use orders::ListLine;

// Reads one line of a correction list, with its line feed.
pub fn read_list_line(line: &[u8]) -> ListLine
    ensures { result ≡ line_read line.now }
{
    if !fields::is_one_line(line) {
        return fields::MALFORMED;
    }
    fields::fields_of(line)
}

// The column name of a list line as a part of the line itself; the empty part at its start where the line is malformed.
pub fn name_in_line(line: &[u8]) -> &[u8]
    ensures { IsPart line.entry result (line_read line.now).name }
{
    let l = read_list_line(line);
    let start = l.name.start;
    let n = l.name.len;
    &line[start..start + n]
}
