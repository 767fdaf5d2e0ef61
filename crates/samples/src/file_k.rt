// File K of document 01, edited in place.
use pages::put;

// File K has so many bytes.
const BYTES: usize = 339;

const K: &[u8; BYTES] = b"BOTTLE,20240310ABCXYZJRS
# made for the tests
EXPOCODE,STNNBR,CASTNO,DATE,LATITUDE,LONGITUDE,CTDPRS,SALNTY,SALNTY_FLAG_W
,,,,,,DBAR,PSS-78,
33XX20240301,7,1,20240303,-12.5000,  45.2500,  10.0, 35.1234,2
33XX20240301,7,1,20240303,-12.5000,  45.2500,  20.0,-999.0000,9
33XX20240301,8,1,20240304,-13.0000,  45.2500,   9.8, 35.2010,2
END_DATA
";

// Where a line starts, counted from 1; the end where there are not so many.
fn line_start(file: &[u8], line: u64) -> usize {
    let mut left = line;
    for (i, b) in file.iter().enumerate() {
        if left <= 1 {
            return i;
        }
        if *b == b'\n' {
            left -= 1;
        }
    }
    file.len()
}

// File K with a text in place of its bytes from a line and column on, both counted from 1.
pub fn edited(line: u64, column: usize, t: &[u8]) -> [u8; BYTES] {
    let mut file = *K;
    let at = line_start(K, line).saturating_add(column).saturating_sub(1);
    put(&mut file, at, t);
    file
}

// Whether a file is K with a text in place of its bytes from a line and column on.
pub fn is_edited(file: &[u8], line: u64, column: usize, t: &[u8]) -> bool {
    file == edited(line, column, t).as_slice()
}
