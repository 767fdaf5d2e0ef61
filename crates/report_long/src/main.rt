// The report program on 65,537 bytes, one too many: a crate of its own, since a program is run on one input.

#![tactic(auto)]

use std::io;

fn main(rt: HostRuntime) -> io::Result<()> {
    report_text::report_input(&mut rt.reader(), &mut io::writer(&rt))
}
