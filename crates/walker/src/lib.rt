// The walker, which holds the lent file with its place in it: each call is one of the crate walk on both.

#![tactic(auto)]

ghost use Rattle.std.specs.Prelude.{◌≡◌};
ghost use Rattle.line_bytes.specs.Spaces.{IsPart};
ghost use Rattle.cursors.specs.Walkers.{opened_on, walked_on, part_in};

pub use cursors::Walker;

pub fn open<'a>(file: &'a [u8]) -> Walker<'a>
    ensures { result ≡ opened_on file.entry }
{
    let c = walk::open_at(file);
    Walker { file, cursor: c }
}

pub fn next<'a>(walker: Walker<'a>) -> Walker<'a>
    ensures { result ≡ walked_on walker.entry }
{
    let c = walk::step_at(walker.file, walker.cursor);
    Walker {
        file: walker.file,
        cursor: c,
    }
}

pub fn cell<'a>(walker: Walker<'a>) -> &'a [u8]
    ensures { IsPart walker.entry.file result (part_in walker.entry) }
{
    walk::part_at(walker.file, walker.cursor)
}
