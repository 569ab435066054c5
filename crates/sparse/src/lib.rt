// A sparse multiple of the divisor, 1 + x^145 + x^183 + x^211 + x^300, and the same with octets for bits: what stands at the front of a message may be
// taken off and xored in at four places further on, and the register at the end is the same. A word at a time in a carry, for messages of some length; an
// octet at a time in a window, which the compiler makes sixteen at a time, for long ones. The laws are proofs/Multiple.antt, proofs/Words.antt and
// proofs/Octets.antt. What is public here is so for this repository's crates only.
#![tactic(auto)]

ghost use Rattle.std.specs.Prelude.{◌≡◌, ℕ, ◌+◌, ◌≤◌, ◌<◌, length, take, get_or};
ghost use Rattle.std.specs.Int.Bits.{bit_xor};
ghost use Rattle.crc.specs.Crc.{crc_over};
ghost use Rattle.sparse.specs.Words.{number, four, spread};
ghost use Rattle.sparse.specs.Octets.{out_of, carried_on, Cut, Moved, Cleared, Ended};

// ---- words in a carry

// What is to be xored into the next five words of eight octets.
#[derive(Clone, Copy)]
pub struct Carry {
    pub a: u64,
    pub b: u64,
    pub c: u64,
    pub d: u64,
    pub e: u64,
}

// The next word `x` of the message taken off, with what was carried to it: it is carried on to the places 145, 183, 211 and 300 bits behind it.
pub fn taken(w: Carry, x: u64) -> Carry
    ensures { number result ≡ bit_xor (four w.b w.c w.d w.e) (spread (bit_xor w.a x)) }
{
    let t = w.a ^ x;
    Carry {
        a: w.b,
        b: w.c ^ ((t % 0x8000_0000_0000) * 0x2_0000 ^ (t % 0x200) * 0x80_0000_0000_0000),
        c: w.d ^ (t / 0x8000_0000_0000 ^ (t / 0x200 ^ (t % 0x2000_0000_0000) * 0x8_0000)),
        d: w.e ^ (t / 0x2000_0000_0000 ^ (t % 0x10_0000) * 0x1000_0000_0000),
        e: t / 0x10_0000,
    }
}

// ---- octets in a window

// What comes out of the octet of `s` at `at + i`: it is xored with what came out 145, 183, 211 and 300 octets before it.
fn out_of(w: &[u8], s: &[u8], at: usize, i: usize) -> u8
    requires { (length w.now ≡ 1560) × (i < 1260) × (at + i < length s.now) }
    ensures { result ≡ out_of w.now s.now at i }
{
    s[at + i] ^ w[i + 155] ^ w[i + 117] ^ w[i + 89] ^ w[i]
}

// Writes the register to the front of the window, 300 octets before the message: only the last distance takes it up.
fn begin(w: &mut [u8], reg: u32)
    requires { (length w.old ≡ 1560) × ((j : ℕ) → j < 300 → get_or w.old j 0 ≡ 0) }
    ensures { carried_on (take 300 w.new) ≡ reg }
{
    let [a, b, c, d] = reg.to_le_bytes();
    w[0] = a;
    w[1] = b;
    w[2] = c;
    w[3] = d;
}

// Takes off the n octets of `s` at `at`. What came out before them stands in the first 300 places, and what comes out of them is written behind it.
fn reduce(w: &mut [u8], s: &[u8], at: usize, n: usize)
    requires { (length w.old ≡ 1560) × (n ≤ 960) × (at + n + 300 ≤ length s.now) }
    ensures { Cut n at s.now w.old w.new }
{
    for i in 0..n {
        w[i + 300] = out_of(w, s, at, i);
    }
}

// Moves the 300 octets from 960 on to the front, and leaves 0 in their place: of a loop that copies alone LLVM makes a call of memcpy, which nothing else
// needs.
fn move_down(w: &mut [u8])
    requires { length w.old ≡ 1560 }
    ensures { Moved 300 w.old w.new }
{
    for i in 0..300 {
        w[i] = w[i + 960];
        w[i + 960] = 0;
    }
}

// Clears 300 octets from `at` on.
fn clear(w: &mut [u8], at: usize)
    requires { at + 300 ≤ length w.old }
    ensures { Cleared 300 at w.old w.new }
{
    w[at..at + 300].fill(0);
}

// Writes the last 300 octets of `s`, xored with what is carried on to them, to the front. They stand behind the n octets at `at`.
fn finish(w: &mut [u8], s: &[u8], at: usize, n: usize)
    requires { (length w.old ≡ 1560) × (n ≤ 960) × (at + n + 300 ≤ length s.now) }
    ensures { Ended 300 at n s.now w.old w.new }
{
    for i in 0..300 {
        w[i] = out_of(w, s, at, n + i);
    }
}

// Shortens `s` to 300 octets at the front of the window, which is 0 before: from register 0 they leave what `s` leaves from `reg`.
pub fn shorten(w: &mut [u8], reg: u32, s: &[u8])
    requires { (length w.old ≡ 1560) × ((j : ℕ) → j < 300 → get_or w.old j 0 ≡ 0) × (300 ≤ length s.now) }
    ensures { crc_over 0 (take 300 w.new) ≡ crc_over reg s.now }
{
    begin(w, reg);
    // A stride and no `chunks_exact`, which could leave fewer than the 300 octets at the end.
    let mut at = 0;
    while 1260 < s.len() - at {
        reduce(w, s, at, 960);
        move_down(w);
        at += 960;
    }
    let n = s.len() - at - 300;
    reduce(w, s, at, n);
    clear(w, n + 300);
    finish(w, s, at, n);
}
