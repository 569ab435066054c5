// The printing program (document 01) over the plain reader (document 02, item 12): it prints what the program `readings` prints. It is
// `printing::run_into` of `plain_lines::PlainReadings`, whose contract says what is read and what is written; each part is what
// `plain_lines::print_plain` gives.
#![tactic(auto)]

use std::io;

fn main(rt: HostRuntime) -> io::Result<()> {
    printing::run_into::<plain_lines::PlainReadings, _, _>(&mut rt.stdin(), &mut rt.stdout())
}
