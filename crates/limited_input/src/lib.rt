// Input up to a limit: a program that takes so much and no more reads it whole into one buffer before it begins.
#![tactic(auto)]

ghost use Rattle.std.specs.Prelude.{◌<◌, ◌≤◌, length, take, IfOk};
ghost use Rattle.std.specs.Io.KnownBytes.{Consumes, IsAtEnd};

use std::io;
use std::io::Read;

// Reads until `room` is full or the input ends, however few octets a read gives; how many octets that is. After an `Err` some may have been read.
pub fn read_full<R: Read>(reader: &mut R, room: &mut [u8]) -> io::Result<usize>
    ensures in_bounds { IfOk result (λ n. n ≤ length room.new) }
    ensures octets { IfOk result (λ n. Consumes (R.remaining reader.old) (R.remaining reader.new) (take n room.new)) }
    ensures end { IfOk result (λ n. n < length room.new → IsAtEnd (R.remaining reader.new)) }
{
    let mut done = 0;
    while done < room.len() {
        let n = reader.read(&mut room[done..])?;
        if n == 0 {
            return Ok(done);
        }
        done += n;
    }
    Ok(done)
}
