// The requests with a name: the column of it, and a station value under it.
use crate::puts::Page;
use crate::request::{number_in, word};

fn answer_named(file: &[u8], name: &[u8], out: &mut Page) {
    let n = exchange::column_named(file, name);
    if n.number != 0 {
        return out.refused(n.number, n.line, n.column);
    }
    out.put(b"column");
    out.field(n.place);
}

// The answer to a request on a file and a name.
pub fn answer_with_name(line: &[u8], file: &[u8], name: &[u8], out: &mut Page) {
    match word(line, 0) {
        b"station" => {
            let k = number_in(line, 1);
            out.place(b"station", exchange::station_place(file, k, name));
        }
        _ => answer_named(file, name, out),
    }
}
