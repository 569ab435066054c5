// Published values of the CRC-32 of IEEE 802.3, each computed by the static tables and by lent ones. "123456789" is the check value of the
// catalogue of parametrised CRC algorithms (CRC-32/ISO-HDLC), that of "IEND" ends every PNG file (ISO/IEC 15948, whose CRC is this
// one), and the others are what zlib's crc32 gives.
#![tactic(auto)]

use fcs::Rows;
use std::io;

// One line: the octets' name, their check, and whether both ways give the expected one.
fn vector(rt: &impl Print, rows: Rows, name: &[u8], s: &[u8], expected: u32) -> io::Result<()> {
    let f = fcs::check(s);
    let by = fcs::check_by(Some(rows), s);
    rt.write_all(name)?;
    print!(rt; " {f:08x}")?;
    if f == expected && by == expected {
        rt.write_all(b" ok\n")
    } else {
        rt.write_all(b" wrong\n")
    }
}

fn main(rt: HostRuntime) -> io::Result<()> {
    let mut t = [0; 4096];
    fcs::make_tables(&mut t);
    let rows = Rows { t: &t };
    vector(&rt, rows, b"123456789", b"123456789", 0xCBF4_3926)?;
    vector(&rt, rows, b"nothing", b"", 0)?;
    vector(&rt, rows, b"a", b"a", 0xE8B7_BE43)?;
    vector(&rt, rows, b"abc", b"abc", 0x3524_41C2)?;
    vector(&rt, rows, b"IEND", b"IEND", 0xAE42_6082)?;
    let fox = b"The quick brown fox jumps over the lazy dog";
    vector(&rt, rows, fox, fox, 0x414F_A339)?;
    vector(&rt, rows, b"32 octets 00", &[0; 32], 0x190A_55AD)?;
    vector(&rt, rows, b"32 octets ff", &[0xFF; 32], 0xFF6C_AB0B)
}
