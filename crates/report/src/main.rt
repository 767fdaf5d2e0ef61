// Reports on the exchange file on standard input.

#![tactic(auto)]

use std::io;

fn main(rt: HostRuntime) -> io::Result<()> {
    report_text::report_input(&mut rt.reader(), &mut io::writer(&rt))
}
