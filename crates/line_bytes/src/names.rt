// The bytes of names.
ghost use Rattle.std.specs.Prelude.{◌≡◌};
ghost use Rattle.std.specs.List.{list_all};
ghost use Rattle.line_bytes.specs.Names.{name_byte};

// Whether each byte of a text may stand in a name.
pub fn all_name_bytes(t: &[u8]) -> bool
    ensures { result ≡ list_all name_byte t.now }
{
    t.iter().all(|&x| matches!(x, 0x21..=0x7e) && !matches!(x, b',' | b'a'..=b'z'))
}
