// The division of IEEE 802.3 clause 3, bit by bit: the meaning is specs/Crc.antt, the laws of a fast division proofs/Linear.antt.
#![tactic(auto)]

ghost use Rattle.std.specs.Prelude.{◌≡◌};
ghost use Rattle.crc.specs.Crc.{crc_bit, crc_bits};
ghost use Rattle.crc.specs.Both.{both};

// One bit leaves the register.
fn bit(x: u32) -> u32
    ensures { result ≡ crc_bit x }
{
    if x % 2 == 0 {
        x / 2
    } else {
        (x / 2) ^ 0xEDB8_8320
    }
}

// n bits leave it. It is slow: what computes a table's entry calls it, and no reader of frames.
pub fn bits(n: u32, x: u32) -> u32
    ensures { result ≡ crc_bits n x }
{
    let mut r = x;
    for _ in 0..n {
        r = bit(r);
    }
    r
}

// What an entry of the tables holds, computed. It is the arm of each table's `match` that no caller reaches, and LLVM removes it; with it a table's
// contract holds at every number, and Rattle proves it with no file.
pub fn far(n: u32, v: u32) -> u64
    ensures { result ≡ both 64 n v }
{
    let a = bits(n, v);
    u64::from(a) ^ u64::from(bits(64, a)) * 0x1_0000_0000
}
