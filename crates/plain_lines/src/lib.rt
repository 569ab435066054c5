// What the printing program prints (document 01, "The printing program"), by the plain reader (document 02, item 12): it goes through the records of its
// input symbol by symbol and keeps no capture. What it prints is the definition of crate `lines`, so that it is the same on every input.
#![tactic(auto)]

ghost use Rattle.std.specs.Prelude.{◌≡◌, false, ◌≤◌, length};
ghost use Rattle.std.proofs.Math.Dec.{lit≤};
ghost use Rattle.line.specs.Line.{overwrite};
ghost use Rattle.printing.specs.Lines.{bad_input, printed, printed_bad};
ghost use Rattle.printing.specs.Parts.{part};
ghost use Rattle.printing.specs.Shown.{Shown};

use kept::Told;
use printing::{Output, Program};

// A part of the output of a whole input of at most 32,768 records, and how long that output is: a line at each symbol that ends a run.
fn show_steps(input: &[u8], from: usize, out: &mut [u8]) -> usize
    requires { bad_input input.now ≡ false }
    ensures shown { Shown from out.old 0 (printed input.now) result out.new }
    ensures upper_bound { result ≤ 2752680 }
{
    let s = printing::settings();
    let none = table::empty();
    let mut p = plain::fresh(station::fresh_state());
    let mut n: u64 = 0;
    let mut at: usize = 0;
    for k in 0..input.len() / 2 {
        let run = p.run;
        let step = plain::take_symbol(s, 0, &none, p, input[2 * k + 1], input[2 * k]);
        let told = step.told;
        match told {
            Told::Refused(_) => return printing::show_last(out, from, at, n, 0),
            Told::Quiet => {}
            Told::Counted(o, word, part, _way) => {
                at = printing::show_counted(out, from, at, run.start as usize, o, word, part.len);
                n += 1;
            }
        }
        p = step.plain;
    }
    printing::show_last(out, from, at, n, u64::from(p.running))
}

// The lines of readings, by the plain reader.
pub struct PlainReadings;

impl Output for PlainReadings {
    ghost text = { printed };

    ghost most = { 2752680 };

    ghost told_bad = { printed_bad };

    ghost bounded = { (lit≤ tt, lit≤ tt) };

    fn show_good(input: &[u8], from: usize, out: &mut [u8]) -> usize {
        show_steps(input, from, out)
    }
}

// Of all that the program prints of its input, the octets from `from` on, as many as `out` has room for, over the front of `out`; how many that is.
pub fn print_plain(input: &[u8], from: usize, out: &mut [u8; 131072]) -> usize
    ensures value { result ≡ length (part 131072 from (printed input.now)) }
    ensures out_after { out.new ≡ overwrite out.old 0 (part 131072 from (printed input.now)) }
    ensures input_len_bound { length (printed input.now) ≤ 2752680 }
{
    printing::print_part::<PlainReadings>(input, from, out)
}

impl Program for PlainReadings {
    fn print(input: &[u8], from: usize, out: &mut [u8; 131072]) -> usize {
        print_plain(input, from, out)
    }
}
