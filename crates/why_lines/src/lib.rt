// What the crew's program `why` prints (document 02, item 8): for each counted Start a line that says why it has its outcome. Meaning: specs/.
#![tactic(auto)]

ghost use Rattle.std.specs.Prelude.{◌≡◌, ◌+◌, ◌*◌, ◌<◌, ◌≤◌, length};
ghost use Rattle.std.proofs.Math.Dec.{lit≤};
ghost use Rattle.line.specs.Line.{overwrite};
ghost use Rattle.splice.specs.Written.{Put};
ghost use Rattle.printing.specs.Parts.{part};
ghost use Rattle.printing.specs.Shown.{Shown};
ghost use Rattle.reason.specs.declared.Reason.TheVariants.{CutAt, ShortRun, WrongOctet, FcsDiffers, LengthBroken, NotForUs, Handed};
ghost use Rattle.why_lines.specs.Hex.{hex_digit, hex_octet, hex16, hex32};
ghost use Rattle.why_lines.specs.Ended.{open_number};
ghost use Rattle.why_lines.specs.Whys.{with_number, with_hex16, with_hex32, hex_then, three_octets, end_name, sizes, opcode_text, reason_text, why_line};
ghost use Rattle.why_lines.specs.Whys.{capture_whys, printed_whys, printed_whys_bad};

use printing::{
    CaptureLines, Output, Program, put_decimal, put_followed, put_octet, show, show_last,
};
use reason::{Reason, Why};
use splice::put;
use station::Address;

// ---- hexadecimal digits, of a fixed width

fn hex_digit(d: u8) -> u8
    requires { d < 16 }
    ensures { result ≡ hex_digit d }
{
    if d < 10 { 48 + d } else { 55 + d }
}

// The two digits of an octet.
fn put_hex(out: &mut [u8], at: usize, v: u8) -> usize
    requires { at + 2 ≤ length out.old }
    ensures put { Put out.old at (hex_octet v) result out.new }
    ensures value { result ≡ at + 2 }
{
    let high = hex_digit(v / 16);
    let low = hex_digit(v % 16);
    let a = put_octet(out, at, high);
    put_octet(out, a, low)
}

// Those of 16 bits: halves by `/` and `%`, as `hex16` and `hex32` of specs/ have them.
fn put_hex16(out: &mut [u8], at: usize, n: u16) -> usize
    requires { at + 4 ≤ length out.old }
    ensures put { Put out.old at (hex16 n) result out.new }
    ensures value { result ≡ at + 4 }
{
    let a = put_hex(out, at, (n / 256) as u8);
    put_hex(out, a, (n % 256) as u8)
}

// Those of 32 bits.
fn put_hex32(out: &mut [u8], at: usize, n: u32) -> usize
    requires { at + 8 ≤ length out.old }
    ensures put { Put out.old at (hex32 n) result out.new }
    ensures value { result ≡ at + 8 }
{
    let a = put_hex16(out, at, (n / 0x1_0000) as u16);
    put_hex16(out, a, (n % 0x1_0000) as u16)
}

// ---- words and what stands behind them

// Words and a number: 20 digits at most. `as` from `usize`: std has no `From` of it.
fn put_number(out: &mut [u8], at: usize, words: &[u8], n: usize) -> usize
    requires { at + length words.now + 20 ≤ length out.old }
    ensures put { Put out.old at (with_number words.now n) result out.new }
    ensures upper_bound { result ≤ at + length words.now + 20 }
{
    let a = put(out, at, words);
    put_decimal(out, a, n as u64)
}

// Words and 16 bits.
fn put_words16(out: &mut [u8], at: usize, words: &[u8], n: u16) -> usize
    requires { at + length words.now + 4 ≤ length out.old }
    ensures put { Put out.old at (with_hex16 words.now n) result out.new }
    ensures value { result ≡ at + length words.now + 4 }
{
    let a = put(out, at, words);
    put_hex16(out, a, n)
}

// Words and 32 bits.
fn put_words32(out: &mut [u8], at: usize, words: &[u8], n: u32) -> usize
    requires { at + length words.now + 8 ≤ length out.old }
    ensures put { Put out.old at (with_hex32 words.now n) result out.new }
    ensures value { result ≡ at + length words.now + 8 }
{
    let a = put(out, at, words);
    put_hex32(out, a, n)
}

// The digits of an octet and the octet after them.
fn put_then(out: &mut [u8], at: usize, v: u8, x: u8) -> usize
    requires { at + 3 ≤ length out.old }
    ensures put { Put out.old at (hex_then v x) result out.new }
    ensures value { result ≡ at + 3 }
{
    let a = put_hex(out, at, v);
    put_octet(out, a, x)
}

// Three octets of an address, and what stands behind them.
fn put_three(out: &mut [u8], at: usize, a: u8, b: u8, c: u8, x: u8) -> usize
    requires { at + 9 ≤ length out.old }
    ensures put { Put out.old at (three_octets a b c x) result out.new }
    ensures value { result ≡ at + 9 }
{
    let i = put_then(out, at, a, 45);
    let j = put_then(out, i, b, 45);
    put_then(out, j, c, x)
}

// ---- the reasons: 75 octets at most

// The name of a control octet that cut a run, and the end of the line.
fn put_name(out: &mut [u8], at: usize, v: u8) -> usize
    requires { at + 14 ≤ length out.old }
    ensures put { Put out.old at (end_name v) result out.new }
    ensures upper_bound { result ≤ at + 14 }
{
    if v == 0x07 {
        return put(out, at, b" (Idle)\n");
    }
    if v == 0xFB {
        return put(out, at, b" (Start)\n");
    }
    if v == 0xFE {
        return put(out, at, b" (Error)\n");
    }
    put(out, at, b" (like Error)\n")
}

fn put_cut(out: &mut [u8], at: usize, p: usize, o: u8) -> usize
    requires { at + 75 ≤ length out.old }
    ensures put { Put out.old at (reason_text (CutAt p o)) result out.new }
    ensures upper_bound { result ≤ at + 75 }
{
    let i = put_number(out, at, b"cut at ", p);
    let j = put(out, i, b" by 0x");
    let k = put_hex(out, j, o);
    put_name(out, k, o)
}

fn put_short_run(out: &mut [u8], at: usize, n: usize) -> usize
    requires { at + 75 ≤ length out.old }
    ensures put { Put out.old at (reason_text (ShortRun n)) result out.new }
    ensures upper_bound { result ≤ at + 75 }
{
    let i = put_number(out, at, b"bad preamble: run length ", n);
    put_octet(out, i, 10)
}

fn put_wrong_octet(out: &mut [u8], at: usize, p: usize) -> usize
    requires { at + 75 ≤ length out.old }
    ensures put { Put out.old at (reason_text (WrongOctet p)) result out.new }
    ensures upper_bound { result ≤ at + 75 }
{
    let i = put_number(out, at, b"bad preamble: first wrong place ", p);
    put_octet(out, i, 10)
}

// A size and its limit.
fn put_sizes(out: &mut [u8], at: usize, words: &[u8], n: usize, limit: usize) -> usize
    requires { (length words.now ≤ 20) × (at + 75 ≤ length out.old) }
    ensures put { Put out.old at (sizes words.now n limit) result out.new }
    ensures upper_bound { result ≤ at + 75 }
{
    let i = put_number(out, at, words, n);
    let j = put_number(out, i, b", limit ", limit);
    put_octet(out, j, 10)
}

fn put_fcs(out: &mut [u8], at: usize, there: u32, computed: u32) -> usize
    requires { at + 75 ≤ length out.old }
    ensures put { Put out.old at (reason_text (FcsDiffers there computed)) result out.new }
    ensures upper_bound { result ≤ at + 75 }
{
    let i = put_words32(out, at, b"wrong FCS: stands 0x", there);
    let j = put_words32(out, i, b", should be 0x", computed);
    put_octet(out, j, 10)
}

fn put_length(out: &mut [u8], at: usize, field: u16, n: usize) -> usize
    requires { at + 75 ≤ length out.old }
    ensures put { Put out.old at (reason_text (LengthBroken field n)) result out.new }
    ensures upper_bound { result ≤ at + 75 }
{
    let i = put_words16(out, at, b"wrong length: field 0x", field);
    let j = put_number(out, i, b", data length ", n);
    put_octet(out, j, 10)
}

fn put_destination(out: &mut [u8], at: usize, d: Address) -> usize
    requires { at + 75 ≤ length out.old }
    ensures put { Put out.old at (reason_text (NotForUs d)) result out.new }
    ensures upper_bound { result ≤ at + 75 }
{
    let i = put(out, at, b"filtered: to ");
    let o = d.0;
    let j = put_three(out, i, o[0], o[1], o[2], 45);
    put_three(out, j, o[3], o[4], o[5], 10)
}

// An opcode.
fn put_opcode(out: &mut [u8], at: usize, words: &[u8], n: u16) -> usize
    requires { (length words.now ≤ 40) × (at + 75 ≤ length out.old) }
    ensures put { Put out.old at (opcode_text words.now n) result out.new }
    ensures upper_bound { result ≤ at + 75 }
{
    let i = put_words16(out, at, words, n);
    put_octet(out, i, 10)
}

fn put_handed(out: &mut [u8], at: usize, p: usize, n: usize) -> usize
    requires { at + 75 ≤ length out.old }
    ensures put { Put out.old at (reason_text (Handed p n)) result out.new }
    ensures upper_bound { result ≤ at + 75 }
{
    let i = put_number(out, at, b"handed out: data at ", p);
    let j = put_number(out, i, b", length ", n);
    put_octet(out, j, 10)
}

#[tactic(auto, unfolding(crate::specs::Whys::reason_text))]
fn put_reason(out: &mut [u8], at: usize, r: Reason) -> usize
    requires { at + 75 ≤ length out.old }
    ensures put { Put out.old at (reason_text r) result out.new }
    ensures upper_bound { result ≤ at + 75 }
{
    match r {
        Reason::CutAt(p, o) => put_cut(out, at, p, o),
        Reason::ShortRun(n) => put_short_run(out, at, n),
        Reason::WrongOctet(p) => put_wrong_octet(out, at, p),
        Reason::TooShort(n, limit) => put_sizes(out, at, b"undersized: length ", n, limit),
        Reason::TooLong(n, limit) => put_sizes(out, at, b"oversized: length ", n, limit),
        Reason::FcsDiffers(a, b) => put_fcs(out, at, a, b),
        Reason::LengthBroken(field, n) => put_length(out, at, field, n),
        Reason::NotForUs(d) => put_destination(out, at, d),
        Reason::TookPause(n) => put_opcode(out, at, b"pause taken: opcode 0x", n),
        Reason::TookPfc(n) => put_opcode(out, at, b"PFC taken: opcode 0x", n),
        Reason::DroppedControl(n) => put_opcode(out, at, b"control dropped: opcode 0x", n),
        Reason::Handed(p, n) => put_handed(out, at, p, n),
    }
}

// A line: 96 octets at most.
fn put_why(out: &mut [u8], at: usize, start: usize, r: Reason) -> usize
    requires { at + 96 ≤ length out.old }
    ensures put { Put out.old at (why_line start r) result out.new }
    ensures upper_bound { result ≤ at + 96 }
{
    let i = put_followed(out, at, start as u64, 32);
    put_reason(out, i, r)
}

// The same, of a text of which `out` has a part (`lines::show`).
fn show_why(out: &mut [u8], from: usize, at: usize, start: usize, r: Reason) -> usize
    requires { at + 96 ≤ 4294967295 }
    ensures shown { Shown from out.old at (why_line start r) result out.new }
    ensures upper_bound { result ≤ at + 96 }
{
    let mut line = [0u8; 96];
    let k = put_why(&mut line, 0, start, r);
    show(out, from, at, &line[..k])
}

// ---- the lines of a capture

// What the last line says of an answer that has no reason.
fn open_number(a: Why) -> u64
    ensures { result ≡ open_number a }
{
    u64::from(matches!(a, Why::Open))
}

// All lines: a Start after the other, each searched from the next place of the one before.
fn show_whys(octets: &[u8], marks: &[u8], from: usize, out: &mut [u8]) -> usize
    requires { length octets.now ≤ 32768 }
    ensures shown { Shown from out.old 0 (capture_whys octets.now marks.now) result out.new }
    ensures upper_bound { result ≤ 3145920 }
{
    let s = printing::settings();
    let none = table::empty();
    let mut place: usize = 0;
    let mut at: usize = 0;
    for n in 0..octets.len() + 1 {
        let e = reason::explain(s, 0, &none, octets, marks, place);
        let a = e.answer;
        let Why::Because(r) = a else {
            let opened = open_number(a);
            return show_last(out, from, at, n as u64, opened);
        };
        at = show_why(out, from, at, e.start, r);
        place = e.next;
    }
    show_last(out, from, at, octets.len() as u64 + 1, 0)
}

// ---- the whole output

// Why each Start has its outcome.
pub struct Whys;

impl CaptureLines for Whys {
    ghost lines = { capture_whys };

    ghost most_octets = { 3145920 };

    fn show_lines(octets: &[u8], marks: &[u8], from: usize, out: &mut [u8]) -> usize {
        show_whys(octets, marks, from, out)
    }
}

impl Output for Whys {
    ghost text = { printed_whys };

    ghost most = { 3145920 };

    ghost told_bad = { printed_whys_bad };

    ghost bounded = { (lit≤ tt, lit≤ tt) };

    fn show_good(input: &[u8], from: usize, out: &mut [u8]) -> usize {
        printing::show_records::<Whys>(input, from, out)
    }
}

// Of all that the program prints of its input, the octets from `from` on, as many as `out` has room for, over the front of `out`; how many that
// is. 96 octets for each of 32,768 lines and more for the last are enough.
pub fn print_whys(input: &[u8], from: usize, out: &mut [u8; 131072]) -> usize
    ensures value { result ≡ length (part 131072 from (printed_whys input.now)) }
    ensures out_after { out.new ≡ overwrite out.old 0 (part 131072 from (printed_whys input.now)) }
    ensures input_len_bound { length (printed_whys input.now) ≤ 3145920 }
{
    printing::print_part::<Whys>(input, from, out)
}

impl Program for Whys {
    fn print(input: &[u8], from: usize, out: &mut [u8; 131072]) -> usize {
        print_whys(input, from, out)
    }
}
