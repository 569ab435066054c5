// Writing octets over a lent buffer. These are public for this repository's crates only, since each asks for the room that it writes to. Buffer and place
// are two parameters, here and in all writers above: a struct would hold a `&mut`, and each promise, one `Put`, would name its fields four times.
#![tactic(auto)]

ghost use Rattle.std.specs.Prelude.{◌+◌, ◌≤◌, length, replicate};
ghost use Rattle.splice.specs.Written.{Put};

// All of src over dst from `at` on; the place behind it.
pub fn put(dst: &mut [u8], at: usize, src: &[u8]) -> usize
    requires { at + length src.now ≤ length dst.old }
    ensures { Put dst.old at src.now result dst.new }
{
    for (j, octet) in src.iter().enumerate() {
        dst[at + j] = *octet;
    }
    at + src.len()
}

// The octet v, n times, over dst from `at` on; the place behind it. The library's `fill` is slower here: it stores the last octet by itself.
pub fn fill(dst: &mut [u8], at: usize, n: usize, v: u8) -> usize
    requires { at + n ≤ length dst.old }
    ensures { Put dst.old at (replicate n v) result dst.new }
{
    for j in 0..n {
        dst[at + j] = v;
    }
    at + n
}
