// Starts per stretch (document 02, item 9): a total for each block of 256 symbols, lent beside the capture. Meaning: specs/.
#![tactic(auto)]

ghost use Rattle.std.specs.Prelude.{◌≡◌, Bool, true, false, cond, ◌+◌, ◌-◌, ◌*◌, ◌/◌, ◌≤◌, ◌<◌, length, take};
ghost use Rattle.line.specs.Limits.{most_symbols, block_size};
ghost use Rattle.line.specs.Line.{capture, is_start};
ghost use Rattle.line.specs.Table.{first};
ghost use Rattle.station.specs.Station.{total};
ghost use Rattle.totals.specs.Totals.{blocks, starts_in, block_total, recounted, wrong_totals, high_total, before_refusals, fill_refusals, before_place};
ghost use Rattle.totals.specs.Totals.{filling, filled};

use line::{BLOCK_SIZE, MOST_TOTAL};
use station::Refusal;

// ---- counting

// 1 for a Start, 0 for any other symbol.
fn one(octet: u8, mark: u8) -> u8
    ensures { result ≡ cond (is_start (record { octet = octet; mark = mark })) 1 0 }
{
    u8::from(mark != 0 && octet == 0xFB)
}

// The Starts from one place up to another, half a block on at most: their number fits an octet, so that it is vector code of 16 lanes.
fn starts_in_half(octets: &[u8], marks: &[u8], from: usize, to: usize) -> u8
    requires { (from ≤ to) × (to ≤ length octets.now) × (to ≤ length marks.now) × (to ≤ from + 128) }
    ensures { result ≡ starts_in (capture octets.now marks.now) from to }
{
    let mut n: u8 = 0;
    for i in from..to {
        n += one(octets[i], marks[i]);
    }
    n
}

// The Starts from one place up to another, 256 places on at most.
fn starts_in(octets: &[u8], marks: &[u8], from: usize, to: usize) -> u16
    requires { (from ≤ to) × (to ≤ length octets.now) × (to ≤ length marks.now) × (to ≤ from + block_size) }
    ensures { result ≡ starts_in (capture octets.now marks.now) from to }
{
    if to - from < 128 {
        return u16::from(starts_in_half(octets, marks, from, to));
    }
    let front = starts_in_half(octets, marks, from, from + 128);
    let rest = starts_in_half(octets, marks, from + 128, to);
    u16::from(front) + u16::from(rest)
}

// The total of block k: its last place is 256 on, or the capture's end.
fn block_total(octets: &[u8], marks: &[u8], k: usize) -> u16
    requires { (length octets.now ≡ length marks.now) × (block_size * k ≤ length octets.now) }
    ensures { result ≡ block_total (capture octets.now marks.now) k }
{
    let from = BLOCK_SIZE * k;
    let left = octets.len() - from;
    // two calls: a whole block ends so far behind its beginning that its halves are unrolled, of a third fewer instructions than with `left.min(BLOCK_SIZE)`
    if left < BLOCK_SIZE {
        return starts_in(octets, marks, from, from + left);
    }
    starts_in(octets, marks, from, from + BLOCK_SIZE)
}

// Counts the blocks anew that hold places from `from` up to `to`, and touches no other total. Public for this repository's crates only, since it
// asks for what refusals 2, 3 and 21 have settled.
pub fn recount(octets: &[u8], marks: &[u8], totals: &mut [u16], from: usize, to: usize)
    requires { (length octets.now ≡ length marks.now) × (to ≤ length octets.now) × (length totals.old ≡ blocks (length octets.now)) }
    ensures { totals.new ≡ recounted (capture octets.now marks.now) from to totals.old }
{
    if from < to {
        for k in from / BLOCK_SIZE..to.div_ceil(BLOCK_SIZE) {
            totals[k] = block_total(octets, marks, k);
        }
    }
}

// ---- the refusals

// Refusal 21.
pub fn wrong_totals(octets: &[u8], totals: &[u16]) -> bool
    requires { length octets.now ≤ most_symbols }
    ensures { result ≡ wrong_totals octets.now totals.now }
{
    totals.len() != octets.len().div_ceil(BLOCK_SIZE)
}

// Refusal 22. No way out of the loop, so that it is vector code.
pub fn high_total(totals: &[u16]) -> bool
    ensures { result ≡ high_total totals.now }
{
    let mut high = false;
    for n in totals {
        high |= MOST_TOTAL < *n;
    }
    high
}

// The refusals of the question.
pub fn check_before(
    octets: &[u8],
    marks: &[u8],
    totals: &[u16],
    place: usize,
) -> Result<(), Refusal>
    ensures { result ≡ first (before_refusals octets.now marks.now place totals.now) }
{
    if station::bad_buffers(octets, marks) {
        return Err(Refusal::BadBuffers);
    }
    if station::bad_place(octets, place) {
        return Err(Refusal::BadPlace);
    }
    if wrong_totals(octets, totals) {
        return Err(Refusal::WrongTotals);
    }
    if high_total(totals) {
        return Err(Refusal::HighTotal);
    }
    Ok(())
}

// The refusals of filling.
fn check_fill(octets: &[u8], marks: &[u8], totals: &[u16]) -> Result<(), Refusal>
    ensures { result ≡ first (fill_refusals octets.now marks.now totals.now) }
{
    if station::bad_buffers(octets, marks) {
        return Err(Refusal::BadBuffers);
    }
    if wrong_totals(octets, totals) {
        return Err(Refusal::WrongTotals);
    }
    Ok(())
}

// ---- the calls

// The first n totals together, of which none is above 256.
fn sum_of(totals: &[u16], n: usize) -> usize
    requires { (n ≤ length totals.now) × (length totals.now ≤ block_size) × (high_total totals.now ≡ false) }
    ensures { (result ≡ total (take n totals.now)) × (result ≤ most_symbols) }
{
    let mut sum: usize = 0;
    for i in 0..n {
        sum += usize::from(totals[i]);
    }
    sum
}

// How many Starts lie before a place: whole blocks by their totals, and a look into the last.
pub fn starts_before(
    octets: &[u8],
    marks: &[u8],
    totals: &[u16],
    place: usize,
) -> Result<usize, Refusal>
    ensures { result ≡ before_place octets.now marks.now place totals.now }
{
    check_before(octets, marks, totals, place)?;
    let whole = place / BLOCK_SIZE;
    let sum = sum_of(totals, whole);
    let last = starts_in(octets, marks, BLOCK_SIZE * whole, place);
    Ok(sum + usize::from(last))
}

// Fills all totals of a capture.
pub fn fill_totals(octets: &[u8], marks: &[u8], totals: &mut [u16]) -> Result<(), Refusal>
    ensures { filling result totals.new ≡ filled octets.now marks.now totals.old }
{
    check_fill(octets, marks, totals)?;
    recount(octets, marks, totals, 0, octets.len());
    Ok(())
}
