// A column found in a file that is checked first.
ghost use Rattle.std.specs.Prelude.{◌≡◌};
ghost use Rattle.whole_columns.specs.Inner.Columns.{Found, is_read};

use format::Refusal;
use text::{kinds, refusals};

// What the rows of a column are read as.
#[derive(Clone, Copy)]
pub enum ReadAs {
    Decimals,
    Flags,
}

// A column, counted from 1, and its kind, a byte since it is handed on to calls that are defined for any; its rows, the first of which starts at `first`.
#[derive(Clone, Copy)]
pub struct Column {
    pub column: u64,
    pub kind: u8,
    pub rows: usize,
    pub first: usize,
}

// The column, where it can be read so, with tables that have room for so many rows.
pub fn open_column(
    file: &[u8],
    column: u64,
    read_as: ReadAs,
    room: usize,
) -> Result<Column, Refusal>
    ensures { Found file.now column read_as room result }
{
    let o = rules::open_file(file).accepted()?;
    let c = o.checked;
    if (column < 1) | (c.columns < column) {
        return Err(Refusal::nowhere(refusals::NO_SUCH_PLACE));
    }
    let kind = columns::kind_in(file, o.names, column);
    if !is_read(read_as, kind) {
        return Err(Refusal::nowhere(refusals::COLUMN_OF_OTHER_KIND));
    }
    if (room as u64) < c.rows {
        return Err(Refusal::nowhere(refusals::TABLE_TOO_SHORT));
    }
    Ok(Column {
        column,
        kind,
        rows: c.rows as usize,
        first: o.first,
    })
}

// Whether columns of a kind are read so.
fn is_read(read_as: ReadAs, kind: u8) -> bool
    ensures { result ≡ is_read read_as kind }
{
    match read_as {
        ReadAs::Decimals => kind <= kinds::DEPTH,
        ReadAs::Flags => matches!(kind, kinds::FLAG | kinds::CTD_FLAG),
    }
}
