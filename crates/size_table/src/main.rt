// The program `size_table` (document 02, item 13): standard input is records of mark then octet, standard output the size table of that capture, a line with a
// bar for each band. What is printed is `size_lines::print_sizes`, whose contract says it all; one octet more than the longest input is read, so that a
// longer one shows.
// All of it fits one room, so that `printing::run_into`, which asks for part after part, is not for it.
#![tactic(auto)]

use std::io;

fn main(rt: HostRuntime) -> io::Result<()> {
    let mut input = [0u8; 65537];
    let mut out = [0u8; 768];
    let n = limited_input::read_full(&mut rt.stdin(), &mut input)?;
    let k = size_lines::print_sizes(&input[..n], &mut out);
    rt.write_all(&out[..k])
}
