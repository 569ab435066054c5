// The register after eight octets at once, by the static tables of crc_low and crc_high.
#![tactic(auto)]

ghost use Rattle.std.specs.Prelude.{◌≡◌};
ghost use Rattle.crc.specs.Words.{crc_zeros};
ghost use Rattle.crc.specs.Both.{both};

// The two registers after the eight octets of `x`, the lowest first: one above the other, as each table's entry has them.
fn fold8(x: u64) -> u64
    ensures { result ≡ both 64 64 x }
{
    let h = (x % 0x1_0000_0000) as u32;
    let a = (x / 0x1_0000_0000) as u32;
    crc_low::low4(h) ^ crc_high::high4(a)
}

// The register after the eight octets of `x`, the register before them among them.
pub fn after8(x: u64) -> u32
    ensures { result ≡ crc_zeros 8 x }
{
    (fold8(x) % 0x1_0000_0000) as u32
}

// The same after eight octets more that are 0.
pub fn after16(x: u64) -> u32
    ensures { result ≡ crc_zeros 16 x }
{
    (fold8(x) / 0x1_0000_0000) as u32
}
