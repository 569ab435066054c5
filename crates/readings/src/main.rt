// The printing program (document 01): standard input is records of mark then octet, standard output the readings of that capture. It is
// `printing::run_into` of `printing::Readings`, whose contract says what is read and what is written; each part is what `printing::print_lines` gives.
#![tactic(auto)]

use std::io;

fn main(rt: HostRuntime) -> io::Result<()> {
    printing::run_into::<printing::Readings, _, _>(&mut rt.stdin(), &mut rt.stdout())
}
