// The program `why` (document 02, item 8): standard input is records of mark then octet, standard output why each Start of that capture has its
// outcome. It is `printing::run_into` of `why_lines::Whys`, whose contract says what is read and what is written; each part is what `why_lines::print_whys`
// gives.
#![tactic(auto)]

use std::io;

fn main(rt: HostRuntime) -> io::Result<()> {
    printing::run_into::<why_lines::Whys, _, _>(&mut rt.stdin(), &mut rt.stdout())
}
