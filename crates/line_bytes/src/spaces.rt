// The spaces at both ends of a text.
ghost use Rattle.std.specs.Prelude.{◌≡◌, length, take_while, reverse};
ghost use Rattle.line_bytes.specs.Bytes.{is_space};

// How many spaces a text ends with.
pub fn at_end(t: &[u8]) -> usize
    ensures { result ≡ length (take_while is_space (reverse t.now)) }
{
    t.iter().rev().take_while(|&&x| x == b' ').count()
}

// How many it begins with.
pub fn in_front(t: &[u8]) -> usize
    ensures { result ≡ length (take_while is_space t.now) }
{
    t.iter().take_while(|&&x| x == b' ').count()
}
