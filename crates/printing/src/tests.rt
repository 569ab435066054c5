// What `run` reads and prints, which no clause says, and that it succeeds.
use super::*;
use std::cell::Cell;
use std::fmt::Display;
use std::test::Fail;

// A `Print` that takes this text, piece by piece, and nothing else; and how much of it was given.
#[derive(Drop)]
struct Wants<'a> {
    text: &'a [u8],
    given: Cell<usize>,
}

impl<'a> Print for Wants<'a> {
    fn print<D: Display + Drop>(&self, _value: D) -> io::Result<()> {
        Err(io::Error::other("no octets"))
    }

    fn println<D: Display + Drop>(&self, _value: D) -> io::Result<()> {
        Err(io::Error::other("no octets"))
    }

    fn write_all(&self, bytes: &[u8]) -> io::Result<()> {
        let at = self.given.get();
        let left = self.text.get(at..).unwrap_or(b"");
        if !left.starts_with(bytes) {
            return Err(io::Error::other("another text"));
        }
        self.given.set(at.saturating_add(bytes.len()));
        Ok(())
    }
}

// Whether of this input the program of readings reads all, and prints this text, whole and no more.
fn prints(input: &[u8], text: &[u8]) -> bool {
    let mut reader = input;
    let output = Wants {
        text,
        given: Cell::new(0),
    };
    run::<Readings>(&mut reader, &output).is_ok()
        && reader.is_empty()
        && output.given.get() == text.len()
}

#[test]
fn run_prints_the_readings(rt: HostRuntime) {
    assert!(rt; prints(b"", b"starts 0 open 0\n"));
    assert!(rt; prints(b"\x01\xfb", b"starts 0 open 1\n"));
    assert!(rt; prints(b"\x01\xfb\x01", b"bad input\n"));
    assert!(rt;
        !prints(b"", b"starts 0 open 1\n"),
        "another text is refused"
    );
    assert!(rt; !prints(b"", b""), "and so is any");
}

#[test]
fn run_prints_part_after_part(rt: HostRuntime) -> Result<(), Fail> {
    let mut input = [0u8; 65536];
    for k in 0..32768usize {
        input[2 * k] = 1;
        input[2 * k + 1] = 251;
    }
    let mut text = Vec::new(rt.alloc());
    let mut part = [0u8; 131072];
    // three parts have it all: a text cut short here is another than `run` gives
    for k in 0..4usize {
        let n = print_lines(&input, 131072 * k, &mut part);
        text.extend_from_slice(part.get(..n).ok_or("a part in its room")?)?;
    }
    assert!(rt; 131072 < text.len(), "more than one part");
    assert!(rt; prints(&input, text.as_slice()));
    Ok(())
}
