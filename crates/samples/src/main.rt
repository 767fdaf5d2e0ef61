// Runs the bench samples that are not proved, through the public calls: prints `ok`, or the name of the first one that fails.

#![tactic(auto)]

use std::io;

mod checks;
mod corrections;
mod file_k;

fn main(rt: HostRuntime) -> io::Result<()> {
    let samples = [
        (checks::accepts(b"\xc3\xa9"), "C3 A9 is good"),
        (checks::refuses(b"\xc0\x80"), "C0 80 is 3"),
        (checks::refuses(b"\xed\xa0\x80"), "ED A0 80 is 3"),
        (checks::refuses(b"\xf4\x90\x80\x80"), "F4 90 80 80 is 3"),
        (checks::empty_file(), "the empty file is 14 at 1, 1"),
        (
            checks::blank_salinity(),
            "K with row 1's SALNTY blank is 17 at 5, 53",
        ),
        (checks::flag_zero(), "K with row 3's flag 0 is 18 at 7, 62"),
        (checks::bottles(), "BOTTLES is 7 at 1, 1"),
        (checks::line_ends(), "0D before a line feed is 4 at 4, 18"),
        (
            corrections::salinity(),
            "K, row 2 column 8 to 35.1301 is two spaces and the text",
        ),
        (
            corrections::too_long(),
            "K, row 1 column 8 to -999 with 4 decimals is 25",
        ),
        (
            corrections::fits(),
            "K, row 1 column 8 to -999 with 3 decimals fits",
        ),
        (corrections::shorter(), "a shorter text keeps no old digits"),
        (
            corrections::distant_flag(),
            "a flag is not taken as the next column",
        ),
    ];
    for (ok, name) in samples {
        if !ok {
            return println!(rt; "{name}");
        }
    }
    println!(rt; "ok")
}
