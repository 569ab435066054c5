// What the printing program prints (document 01, "The printing program"). Meaning: specs/.
#![tactic(auto)]

ghost use Rattle.std.specs.Prelude.{◌≡◌, ℕ, true, false, List, [], ◌∷◌, ◌+◌, ◌-◌, ◌*◌, ◌/◌, ◌≤◌, min, length, OnOk};
ghost use Rattle.std.proofs.Math.Dec.{lit≤};
ghost use Rattle.line.specs.Line.{overwrite};
ghost use Rattle.station.specs.Numbers.{outcome_number};
ghost use Rattle.printing.specs.Decimal.{decimal};
ghost use Rattle.printing.specs.Lines.{program_settings, followed, four_numbers, last_line, capture_lines, bad_input, printed, printed_bad, record_octets};
ghost use Rattle.printing.specs.Lines.{record_marks};
ghost use Rattle.printing.specs.Parts.{part};
ghost use Rattle.printing.specs.Runs.{Ran};
ghost use Rattle.printing.specs.Shown.{Shown, open_number};
ghost use Rattle.splice.specs.Written.{Put};

use line::{LEAST_LIMIT, MOST_RECORDS};
use receive::Answer;
use splice::put;
use station::{Address, Flow, Outcome, Settings};
use std::io;
use std::io::{Read, Write};
use std::marker::PhantomData;

// ---- writers: each gives the place behind what it wrote, and asks for the room; those that are public are so for this repository's crates only

// One octet.
pub fn put_octet(out: &mut [u8], at: usize, v: u8) -> usize
    requires { at + 1 ≤ length out.old }
    ensures { Put out.old at (v ∷ []) result out.new }
{
    out[at] = v;
    at + 1
}

// The digits of n: those of its tenth, and the last one.
// By hand: what std and `itoa` print is std's text, and the contract names `decimal` of specs/.
pub fn put_decimal(out: &mut [u8], at: usize, n: u64) -> usize
    requires { at + length (decimal n) ≤ length out.old }
    ensures { Put out.old at (decimal n) result out.new }
{
    if n < 10 {
        return put_octet(out, at, 48 + (n as u8));
    }
    let a = put_decimal(out, at, n / 10);
    put_octet(out, a, 48 + ((n % 10) as u8))
}

// A number and the octet after it: 21 octets at most.
pub fn put_followed(out: &mut [u8], at: usize, n: u64, v: u8) -> usize
    requires { at + 21 ≤ length out.old }
    ensures put { Put out.old at (followed n v) result out.new }
    ensures upper_bound { result ≤ at + 21 }
{
    let a = put_decimal(out, at, n);
    put_octet(out, a, v)
}

// A line: 84 octets at most.
fn put_line(out: &mut [u8], at: usize, a: u64, b: u64, c: u64, d: u64) -> usize
    requires { at + 84 ≤ length out.old }
    ensures put { Put out.old at (four_numbers a b c d) result out.new }
    ensures upper_bound { result ≤ at + 84 }
{
    let i = put_followed(out, at, a, 32);
    let j = put_followed(out, i, b, 32);
    let k = put_followed(out, j, c, 32);
    put_followed(out, k, d, 10)
}

// The last line: 84 octets at most.
fn put_last(out: &mut [u8], at: usize, n: u64, opened: u64) -> usize
    requires { at + 84 ≤ length out.old }
    ensures put { Put out.old at (last_line n opened) result out.new }
    ensures upper_bound { result ≤ at + 84 }
{
    let i = put(out, at, b"starts ");
    let j = put_followed(out, i, n, 32);
    let k = put(out, j, b"open ");
    put_followed(out, k, opened, 10)
}

// The line of a Start that was counted. `as` from `usize`: std has no `From` of it.
fn put_counted(out: &mut [u8], at: usize, start: usize, o: Outcome, word: u64, len: usize) -> usize
    requires { at + 84 ≤ length out.old }
    ensures put { Put out.old at (four_numbers start (outcome_number o) word len) result out.new }
    ensures upper_bound { result ≤ at + 84 }
{
    let k = station::outcome_number(o);
    put_line(out, at, start as u64, u64::from(k), word, len as u64)
}

// ---- a part of the output: of a text longer than `out`, the octets from place `from` of it on that `out` has room for; `at` is a place of the text

// One octet.
fn show_octet(out: &mut [u8], from: usize, at: usize, v: u8) -> usize
    requires { at ≤ 4294967295 }
    ensures { Shown from out.old at (v ∷ []) result out.new }
{
    if from <= at {
        let k = at - from;
        if k < out.len() {
            out[k] = v;
        }
    }
    at + 1
}

// All of src.
pub fn show(out: &mut [u8], from: usize, at: usize, src: &[u8]) -> usize
    requires { at + length src.now ≤ 4294967295 }
    ensures { Shown from out.old at src.now result out.new }
{
    let mut to = at;
    for &v in src {
        to = show_octet(out, from, to, v);
    }
    to
}

// The line of a Start that was counted.
pub fn show_counted(
    out: &mut [u8],
    from: usize,
    at: usize,
    start: usize,
    o: Outcome,
    word: u64,
    len: usize,
) -> usize
    requires { at + 84 ≤ 4294967295 }
    ensures shown { Shown from out.old at (four_numbers start (outcome_number o) word len) result out.new }
    ensures upper_bound { result ≤ at + 84 }
{
    let mut line = [0u8; 84];
    let k = put_counted(&mut line, 0, start, o, word, len);
    show(out, from, at, &line[..k])
}

// The last line.
pub fn show_last(out: &mut [u8], from: usize, at: usize, n: u64, opened: u64) -> usize
    requires { at + 84 ≤ 4294967295 }
    ensures shown { Shown from out.old at (last_line n opened) result out.new }
    ensures upper_bound { result ≤ at + 84 }
{
    let mut line = [0u8; 84];
    let k = put_last(&mut line, 0, n, opened);
    show(out, from, at, &line[..k])
}

// How many octets the part has, of a text of `total`.
pub fn part_length(total: usize, from: usize) -> usize
    ensures { result ≡ min 131072 (total - from) }
{
    total.saturating_sub(from).min(131072)
}

// ---- the lines of a capture

// The settings of the program.
pub fn settings() -> Settings
    ensures { result ≡ program_settings }
{
    Settings {
        own: Address([2, 0, 0, 0, 0, 1]),
        broadcast: true,
        promiscuous: false,
        checking: true,
        limit: LEAST_LIMIT,
        flow: Flow::Off,
        passing: false,
    }
}

// What the last line says of an answer that is no counted Start.
fn open_number(a: Answer) -> u64
    ensures { result ≡ open_number a }
{
    u64::from(matches!(a, Answer::Open))
}

// All lines: a reading after the other, each at the next place of the one before.
fn show_lines(octets: &[u8], marks: &[u8], from: usize, out: &mut [u8]) -> usize
    requires { length octets.now ≤ 32768 }
    ensures shown { Shown from out.old 0 (capture_lines octets.now marks.now) result out.new }
    ensures upper_bound { result ≤ 2752680 }
{
    let s = settings();
    let none = table::empty();
    let mut st = station::fresh_state();
    let mut place: usize = 0;
    let mut at: usize = 0;
    for n in 0..octets.len() + 1 {
        let r = receive::read(s, 0, &none, st, octets, marks, place);
        let a = r.answer;
        let Answer::Counted(o, word, part, _way) = a else {
            let opened = open_number(a);
            return show_last(out, from, at, n as u64, opened);
        };
        at = show_counted(out, from, at, r.start, o, word, part.len);
        st = r.state;
        place = r.next;
    }
    show_last(out, from, at, octets.len() as u64 + 1, 0)
}

// ---- the whole output

// An odd input, or one of more than 32,768 records.
pub fn bad_input(input: &[u8]) -> bool
    ensures { result ≡ bad_input input.now }
{
    input.len() % 2 == 1 || 2 * MOST_RECORDS < input.len()
}

// The octets and the marks of the records, from the start of the two buffers on.
pub fn split(input: &[u8], octets: &mut [u8], marks: &mut [u8])
    requires { (length input.now ≤ length octets.old * 2) × (length input.now ≤ length marks.old * 2) }
    ensures put { Put octets.old 0 (record_octets input.now) (length input.now / 2) octets.new }
    ensures put_2 { Put marks.old 0 (record_marks input.now) (length input.now / 2) marks.new }
{
    for k in 0..input.len() / 2 {
        marks[k] = input[2 * k];
        octets[k] = input[2 * k + 1];
    }
}

// The lines that a program prints of a capture.
pub trait CaptureLines {
    ghost lines: { List ℕ → List ℕ → List ℕ };

    // No capture has more octets of lines.
    ghost most_octets: { ℕ };

    // A part of the lines of at most 32,768 octets, and how long they are.
    fn show_lines(octets: &[u8], marks: &[u8], from: usize, out: &mut [u8]) -> usize
        requires { length octets.now ≤ 32768 }
        ensures shown { Shown from out.old 0 (lines octets.now marks.now) result out.new }
        ensures upper_bound { result ≤ most_octets };
}

// A part of the lines of a whole input of at most 32,768 records, and how long they are.
pub fn show_records<L: CaptureLines>(input: &[u8], from: usize, out: &mut [u8]) -> usize
    requires { bad_input input.now ≡ false }
    ensures shown { Shown from out.old 0 (L.lines (record_octets input.now) (record_marks input.now)) result out.new }
    ensures upper_bound { result ≤ L.most_octets }
{
    let n = input.len() / 2;
    let mut o = [0u8; MOST_RECORDS];
    let mut m = [0u8; MOST_RECORDS];
    split(input, &mut o, &mut m);
    L::show_lines(&o[..n], &m[..n], from, out)
}

// What a program prints of its input: a text of its own of a good one, and `bad input` of any other.
pub trait Output {
    ghost text: { List ℕ → List ℕ };

    // No text is longer.
    ghost most: { ℕ };

    // A part of the text of a whole input of at most 32,768 records, and how long that text is.
    fn show_good(input: &[u8], from: usize, out: &mut [u8]) -> usize
        requires { bad_input input.now ≡ false }
        ensures shown { Shown from out.old 0 (text input.now) result out.new }
        ensures upper_bound { result ≤ most };

    // Of any other input the text is `bad input`.
    ghost told_bad: { (input : List ℕ) → bad_input input ≡ true
        → (98 ∷ 97 ∷ 100 ∷ 32 ∷ 105 ∷ 110 ∷ 112 ∷ 117 ∷ 116 ∷ 10 ∷ []) ≡ text input };

    ghost bounded: { (10 ≤ most) × (most ≤ 3145920) };
}

// The lines of readings.
pub struct Readings;

impl CaptureLines for Readings {
    ghost lines = { capture_lines };

    ghost most_octets = { 2752680 };

    fn show_lines(octets: &[u8], marks: &[u8], from: usize, out: &mut [u8]) -> usize {
        show_lines(octets, marks, from, out)
    }
}

impl Output for Readings {
    ghost text = { printed };

    ghost most = { 2752680 };

    ghost told_bad = { printed_bad };

    ghost bounded = { (lit≤ tt, lit≤ tt) };

    fn show_good(input: &[u8], from: usize, out: &mut [u8]) -> usize {
        show_records::<Readings>(input, from, out)
    }
}

// A part of the output of any input, and how long that output is.
fn show_all<P: Output>(input: &[u8], from: usize, out: &mut [u8]) -> usize
    ensures shown { Shown from out.old 0 (P.text input.now) result out.new }
    ensures upper_bound { result ≤ P.most }
{
    if bad_input(input) {
        return show(out, from, 0, b"bad input\n");
    }
    P::show_good(input, from, out)
}

// Of all that a program prints of its input, the octets from `from` on, as many as `out` has room for, over the front of `out`; how many that
// is. A caller that asks for part after part, each from where the one before ended, has it all once a part is shorter than the room.
pub fn print_part<P: Output>(input: &[u8], from: usize, out: &mut [u8; 131072]) -> usize
    ensures value { result ≡ length (part 131072 from (P.text input.now)) }
    ensures out_after { out.new ≡ overwrite out.old 0 (part 131072 from (P.text input.now)) }
    ensures input_len_bound { length (P.text input.now) ≤ P.most }
{
    let total = show_all::<P>(input, from, out);
    part_length(total, from)
}

// A program that prints such a text, part after part. `print` is the function that the program asks for each part.
pub trait Program: Output {
    // Of all of the text the octets from `from` on, as many as `out` has room for, over the front of `out`; how many that is.
    fn print(input: &[u8], from: usize, out: &mut [u8; 131072]) -> usize
        ensures value { result ≡ length (part 131072 from (Self.text input.now)) }
        ensures out_after { out.new ≡ overwrite out.old 0 (part 131072 from (Self.text input.now)) }
        ensures input_len_bound { length (Self.text input.now) ≤ Self.most };
}

// The part of the lines of readings: 84 octets for each of 32,768 lines and more for the last are enough.
pub fn print_lines(input: &[u8], from: usize, out: &mut [u8; 131072]) -> usize
    ensures value { result ≡ length (part 131072 from (printed input.now)) }
    ensures out_after { out.new ≡ overwrite out.old 0 (part 131072 from (printed input.now)) }
    ensures input_len_bound { length (printed input.now) ≤ 2752680 }
{
    print_part::<Readings>(input, from, out)
}

impl Program for Readings {
    fn print(input: &[u8], from: usize, out: &mut [u8; 131072]) -> usize {
        print_lines(input, from, out)
    }
}

// A whole program: reads its input, and writes all that it prints of it, part by part: a part that does not fill the room is the last. One octet more
// than the longest input is read, so that a longer one shows. After an `Err` some may have been read or written.
pub fn run_into<P: Program, R: Read, W: Write>(reader: &mut R, writer: &mut W) -> io::Result<()>
    ensures { OnOk result (Ran P.text (R.remaining reader.old) (R.remaining reader.new) (W.contents writer.old) (W.contents writer.new)) }
{
    let mut input = [0u8; 65537];
    let mut out = [0u8; 131072];
    let n = limited_input::read_full(reader, &mut input)?;
    let mut from: usize = 0;
    let mut k: usize = 131072;
    while k == 131072 {
        k = P::print(&input[..n], from, &mut out);
        writer.write_all(&out[..k])?;
        from += k;
    }
    Ok(())
}

// ---- the same of any `Output`, over any `Print`

// A text as a program: each part as `print_part` gives it.
struct Parts<P> {
    of: PhantomData<P>,
}

impl<P: Output> Output for Parts<P> {
    ghost text = { P.text };

    ghost most = { P.most };

    ghost told_bad = { P.told_bad };

    ghost bounded = { P.bounded };

    fn show_good(input: &[u8], from: usize, out: &mut [u8]) -> usize {
        P::show_good(input, from, out)
    }
}

impl<P: Output> Program for Parts<P> {
    fn print(input: &[u8], from: usize, out: &mut [u8; 131072]) -> usize {
        print_part::<P>(input, from, out)
    }
}

// A `Print` as a writer: what it is given, nobody knows.
#[derive(Drop)]
struct Printed<'a, T> {
    output: &'a T,
}

impl<'a, T: Print> Write for Printed<'a, T> {
    fn write(&mut self, buf: &[u8]) -> io::Result<usize> {
        self.output.write_some(buf)
    }

    fn flush(&mut self) -> io::Result<()> {
        Ok(())
    }

    fn write_all(&mut self, buf: &[u8]) -> io::Result<()> {
        self.output.write_all(buf)
    }
}

// A whole program over a `Print`, such as the runtime itself: it is given each part whole, one after the other. No clause, since none can name an
// `impl Read` or an `impl Print`.
pub fn run<P: Output>(reader: &mut impl Read, output: &impl Print) -> io::Result<()> {
    run_into::<Parts<P>, _, _>(reader, &mut Printed { output })
}

#[cfg(test)]
mod tests;
