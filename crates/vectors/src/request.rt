// The line of a request: a word and numbers, parted by single spaces.

// The lengths of a request's blocks; only those that are asked by a name have the second.
#[derive(Clone, Copy)]
pub struct Lengths {
    pub file: usize,
    pub name: Option<usize>,
}

// Word k, counted from 0; the empty one where there are not so many.
pub fn word(line: &[u8], k: usize) -> &[u8] {
    line.split(|b| *b == b' ').nth(k).unwrap_or(&[])
}

// The number whose digits a text starts with; the greatest where it is no u64.
fn number(text: &[u8]) -> u64 {
    let mut n: u64 = 0;
    for b in text {
        if !b.is_ascii_digit() {
            break;
        }
        n = n.saturating_mul(10).saturating_add((*b - b'0') as u64);
    }
    n
}

// The number in word k.
pub fn number_in(line: &[u8], k: usize) -> u64 {
    number(word(line, k))
}

// The signed number in word k; the least or the greatest where it is no i64.
pub fn signed_in(line: &[u8], k: usize) -> i64 {
    let text = word(line, k);
    match text.strip_prefix(b"-") {
        Some(digits) => 0i64.saturating_sub_unsigned(number(digits)),
        None => 0i64.saturating_add_unsigned(number(text)),
    }
}

fn length_in(line: &[u8], k: usize) -> usize {
    number_in(line, k) as usize
}

// The last numbers of the line.
pub fn lengths_in(line: &[u8]) -> Lengths {
    match word(line, 0) {
        b"named" => Lengths {
            file: length_in(line, 1),
            name: Some(length_in(line, 2)),
        },
        b"station" => Lengths {
            file: length_in(line, 2),
            name: Some(length_in(line, 3)),
        },
        _ if line.contains(&b' ') => Lengths {
            file: number(line.rsplit(|b| *b == b' ').next().unwrap_or(&[])) as usize,
            name: None,
        },
        _ => Lengths {
            file: 0,
            name: None,
        },
    }
}
