// What the crew's program `size_table` prints (document 02, item 13): the size table of a capture, a line with a bar for each band. Meaning: specs/.
#![tactic(auto)]

ghost use Rattle.std.specs.Prelude.{◌≡◌, false, ◌+◌, ◌≤◌, ◌<◌, length};
ghost use Rattle.line.specs.Line.{overwrite};
ghost use Rattle.splice.specs.Written.{Put};
ghost use Rattle.printing.specs.Lines.{bad_input};
ghost use Rattle.size_lines.specs.Bars.{largest, unit, marks, band_line, unit_line, low_lines, high_lines, table_lines, printed_sizes};

use line::MOST_RECORDS;
use printing::{put_followed, put_octet};
use sizes::SizeTable;
use splice::{fill, put};

// ---- bars

// The largest count.
fn largest_of(counts: [u64; 7]) -> u64
    ensures { result ≡ largest counts }
{
    let mut most: u64 = 0;
    for &n in &counts {
        most = most.max(n);
    }
    most
}

// How many frames a mark stands for.
fn unit_of(counts: [u64; 7]) -> u64
    ensures { (result ≡ unit counts) × (0 < result) }
{
    let most = largest_of(counts);
    most / 40 + 1
}

// How many marks a band has: the rows of `marks` of specs/, in their order.
fn marks_of(n: u64, u: u64) -> usize
    requires { 0 < u }
    ensures { (result ≡ marks n u) × (result ≤ 40) }
{
    let whole = n / u;
    if 40 <= whole {
        return 40;
    }
    if n % u == 0 {
        return whole as usize;
    }
    whole as usize + 1
}

// ---- lines: 96 octets at most

// The line of a band.
fn put_band(out: &mut [u8], at: usize, words: &[u8], frames: u64, octets: u64, u: u64) -> usize
    requires { (0 < u) × (length words.now ≤ 13) × (at + 96 ≤ length out.old) }
    ensures put { Put out.old at (band_line words.now frames octets u) result out.new }
    ensures upper_bound { result ≤ at + 96 }
{
    let k = marks_of(frames, u);
    let a = put(out, at, words);
    let b = put_followed(out, a, frames, 32);
    let c = put_followed(out, b, octets, 32);
    let d = fill(out, c, k, 35);
    put_octet(out, d, 10)
}

// The last line.
fn put_unit(out: &mut [u8], at: usize, u: u64) -> usize
    requires { at + 96 ≤ length out.old }
    ensures put { Put out.old at (unit_line u) result out.new }
    ensures upper_bound { result ≤ at + 96 }
{
    let a = put(out, at, b"frames to a mark ");
    put_followed(out, a, u, 10)
}

// The lines up to 511 octets.
fn put_low(out: &mut [u8], t: SizeTable, u: u64) -> usize
    requires { (0 < u) × (768 ≤ length out.old) }
    ensures put { Put out.old 0 (low_lines t u) result out.new }
    ensures upper_bound { result ≤ 384 }
{
    let f = t.frames;
    let o = t.octets;
    let a = put_band(out, 0, b"64           ", f[0], o[0], u);
    let b = put_band(out, a, b"65 to 127    ", f[1], o[1], u);
    let c = put_band(out, b, b"128 to 255   ", f[2], o[2], u);
    put_band(out, c, b"256 to 511   ", f[3], o[3], u)
}

// The lines from 512 octets on, and the last one.
fn put_high(out: &mut [u8], at: usize, t: SizeTable, u: u64) -> usize
    requires { (0 < u) × (at + 384 ≤ length out.old) }
    ensures put { Put out.old at (high_lines t u) result out.new }
    ensures upper_bound { result ≤ at + 384 }
{
    let f = t.frames;
    let o = t.octets;
    let a = put_band(out, at, b"512 to 1023  ", f[4], o[4], u);
    let b = put_band(out, a, b"1024 to 1518 ", f[5], o[5], u);
    let c = put_band(out, b, b"above        ", f[6], o[6], u);
    put_unit(out, c, u)
}

// All lines.
fn put_table(out: &mut [u8], t: SizeTable) -> usize
    requires { 768 ≤ length out.old }
    ensures put { Put out.old 0 (table_lines t) result out.new }
    ensures upper_bound { result ≤ length out.old }
{
    let f = t.frames;
    let u = unit_of(f);
    let a = put_low(out, t, u);
    put_high(out, a, t, u)
}

// ---- the whole output

// The output of a whole input of at most 32,768 records.
fn print_good(input: &[u8], out: &mut [u8]) -> usize
    requires { (bad_input input.now ≡ false) × (768 ≤ length out.old) }
    ensures put { Put out.old 0 (printed_sizes input.now) result out.new }
    ensures upper_bound { result ≤ length out.old }
{
    let n = input.len() / 2;
    let mut o = [0u8; MOST_RECORDS];
    let mut m = [0u8; MOST_RECORDS];
    printing::split(input, &mut o, &mut m);
    let none = table::empty();
    let added = sizes::add_capture(
        sizes::fresh_sizes(),
        printing::settings(),
        0,
        &none,
        &o[..n],
        &m[..n],
    );
    put_table(out, added.sizes)
}

// All that the program prints of its input, over the front of `out`; how many octets that is. 96 octets for each of eight lines are enough.
pub fn print_sizes(input: &[u8], out: &mut [u8; 768]) -> usize
    ensures value { result ≡ length (printed_sizes input.now) }
    ensures out_after { out.new ≡ overwrite out.old 0 (printed_sizes input.now) }
{
    if printing::bad_input(input) {
        return put(out, 0, b"bad input\n");
    }
    print_good(input, out)
}
