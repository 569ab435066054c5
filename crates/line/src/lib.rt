// The line: symbols, the search for a Start and the run after it (document 01, "The line" and "Reading one Start"). Meaning: specs/.
#![tactic(auto)]

ghost use Rattle.std.specs.Prelude.{◌≡◌, Bool, true, false, ℕ, ◌+◌, ◌≤◌, ◌<◌, length, get_or};
ghost use Rattle.line.specs.Line.{capture, find_start, find_control};
ghost use Rattle.line.specs.Octets.{low_first};
ghost use Rattle.line.specs.Passed.{Passed, Stopped, Has, Lacks, start_at, NoStart, Start};

// ---- The limits of documents 01 and 02: their meaning, with the documents' words, is specs/Limits.antt

pub const MOST_SYMBOLS: usize = 65536;

pub const PREAMBLE_SIZE: usize = 7;

pub const LEAD_SIZE: usize = 8;

pub const LEAST_FRAME: usize = 64;

pub const TAG_SIZE: usize = 4;

pub const FCS_SIZE: usize = 4;

pub const LEAST_TYPE: u16 = 1536;

pub const MOST_LENGTH: usize = 1500;

pub const LEAST_DATA: usize = 46;

pub const QUANTUM_SLOTS: u32 = 64;

pub const PLAIN_IDLES: usize = 11;

pub const LEAST_BODY: usize = 60;

pub const AROUND_BODY: usize = 12;

pub const LEAST_LIMIT: u16 = 1518;

pub const MOST_LIMIT: u16 = 9618;

pub const MOST_CLASS: u8 = 7;

pub const AROUND_DATA: u16 = 18;

pub const MOST_RECORDS: usize = 32768;

pub const MOST_TAGS: u8 = 8;

pub const RECORD_SIZE: usize = 16;

pub const LANES: usize = 4;

pub const MOST_DEFICIT: u64 = 3;

pub const FULL_GAP: usize = 12;

pub const BLOCK_SIZE: usize = 256;

pub const MOST_TOTAL: u16 = 256;

pub const TABLE_ENTRIES: usize = 16;

pub const MOST_HELD: usize = 12;

// ---- The search

// The first Start at `place` or later. The capture ends where the shorter buffer ends.
pub fn find_start(octets: &[u8], marks: &[u8], place: usize) -> Option<usize>
    ensures { result ≡ find_start (capture octets.now marks.now) place }
{
    let end = octets.len().min(marks.len());
    if end <= place {
        return None;
    }
    if is_start(octets, marks, place) {
        return Some(place);
    }
    let i = pass_words(octets, place + 1, end, 0x07);
    let j = start_from(octets, marks, i, end);
    if j < end {
        return Some(j);
    }
    None
}

// The first control symbol at `place` or later. The capture ends where the shorter buffer ends.
pub fn find_control(octets: &[u8], marks: &[u8], place: usize) -> Option<usize>
    ensures { result ≡ find_control (capture octets.now marks.now) place }
{
    let end = octets.len().min(marks.len());
    if end <= place {
        return None;
    }
    if marks[place] != 0 {
        return Some(place);
    }
    let h = pass_data(marks, place, end, 64);
    let i = pass_data(marks, h, end, 16);
    let j = pass_words(marks, i, end, 0);
    let k = first_mark(marks, j, end);
    if k < end {
        return Some(k);
    }
    None
}

// ---- Data symbols, by their marks alone

// Whether one of the `width` marks from `at` on is not 0. The promise goes one way, which is all that a skip needs.
fn any_mark(marks: &[u8], at: usize, width: usize) -> bool
    requires { at + width ≤ length marks.now }
    ensures { result ≡ false → (k : ℕ) → k < width → Has marks.now 0 (at + k) }
{
    let mut any = false;
    for k in 0..width {
        any |= marks[at + k] != 0;
    }
    any
}

// Passes blocks of `width` data symbols.
fn pass_data(marks: &[u8], place: usize, end: usize, width: usize) -> usize
    requires { (place ≤ end) × (end ≤ length marks.now) × (0 < width) }
    ensures { Passed (Has marks.now 0) place result end }
{
    // A stride and no `chunks_exact`: what is asked for is a place, and the first block that does not pass ends it.
    let mut i = place;
    while width <= end - i && !any_mark(marks, i, width) {
        i += width;
    }
    i
}

// Passes data symbols one by one, up to the first control symbol or the end.
fn first_mark(marks: &[u8], place: usize, end: usize) -> usize
    requires { (place ≤ end) × (end ≤ length marks.now) }
    ensures { Stopped (Has marks.now 0) (Lacks marks.now 0) place result end }
{
    for i in place..end {
        if marks[i] != 0 {
            return i;
        }
    }
    end
}

// ---- Words of eight octets

// The eight octets from `at` on as one number, low octet first: one load. It is public for this repository's crates.
#[tactic(auto, unfolding(crate::specs::Octets::low_first))]
pub fn eight(s: &[u8], at: usize) -> u64
    requires { at + 8 ≤ length s.now }
    ensures { result ≡ low_first s.now at 8 }
{
    u64::from_le_bytes([
        s[at],
        s[at + 1],
        s[at + 2],
        s[at + 3],
        s[at + 4],
        s[at + 5],
        s[at + 6],
        s[at + 7],
    ])
}

// How many of the eight octets from `at` on are `v`, up to the first that is not.
fn alike(s: &[u8], at: usize, v: u8) -> usize
    requires { at + 8 ≤ length s.now }
    ensures { (result ≤ 8) × ((k : ℕ) → k < result → Has s.now v (at + k)) }
{
    let x = eight(s, at) ^ (u64::from(v) * 0x0101010101010101);
    (x.trailing_zeros() / 8) as usize
}

// Passes octets that are `v`, up to the first word that holds another one, and in it up to that one.
fn pass_words(s: &[u8], place: usize, end: usize, v: u8) -> usize
    requires { (place ≤ end) × (end ≤ length s.now) }
    ensures { Passed (Has s.now v) place result end }
{
    // A stride, as in `pass_data`.
    let mut i = place;
    while 8 <= end - i {
        let n = alike(s, i, v);
        if n < 8 {
            return i + n;
        }
        i += 8;
    }
    i
}

// ---- Starts

// Whether the symbol at `i` is a Start.
#[tactic(auto, unfolding(crate::specs::Line::is_start, crate::specs::Line::is_control, crate::specs::Line::is_data))]
fn is_start(octets: &[u8], marks: &[u8], i: usize) -> bool
    requires { (i < length octets.now) × (i < length marks.now) }
    ensures { result ≡ start_at octets.now marks.now i }
{
    (marks[i] != 0) & (octets[i] == 0xFB)
}

// Whether one of the sixteen symbols from `at` on is a Start. The promise goes one way, as in `any_mark`.
fn any_start(octets: &[u8], marks: &[u8], at: usize) -> bool
    requires { (at + 16 ≤ length octets.now) × (at + 16 ≤ length marks.now) }
    ensures { result ≡ false → (k : ℕ) → k < 16 → NoStart octets.now marks.now (at + k) }
{
    let mut any = false;
    for j in 0..16 {
        any |= is_start(octets, marks, at + j);
    }
    any
}

// Passes blocks of sixteen symbols none of which is a Start.
fn pass_other(octets: &[u8], marks: &[u8], place: usize, end: usize) -> usize
    requires { (place ≤ end) × (end ≤ length octets.now) × (end ≤ length marks.now) }
    ensures { Passed (NoStart octets.now marks.now) place result end }
{
    // A stride, as in `pass_data`, over two buffers at once.
    let mut i = place;
    while 16 <= end - i && !any_start(octets, marks, i) {
        i += 16;
    }
    i
}

// Passes symbols one by one, up to the first Start or the end.
fn first_start(octets: &[u8], marks: &[u8], place: usize, end: usize) -> usize
    requires { (place ≤ end) × (end ≤ length octets.now) × (end ≤ length marks.now) }
    ensures { Stopped (NoStart octets.now marks.now) (Start octets.now marks.now) place result end }
{
    for i in place..end {
        if is_start(octets, marks, i) {
            return i;
        }
    }
    end
}

// The first Start, where it most likely stands: at `place`, else by blocks, else one by one.
fn start_from(octets: &[u8], marks: &[u8], place: usize, end: usize) -> usize
    requires { (place ≤ end) × (end ≤ length octets.now) × (end ≤ length marks.now) }
    ensures { Stopped (NoStart octets.now marks.now) (Start octets.now marks.now) place result end }
{
    if place < end && is_start(octets, marks, place) {
        return place;
    }
    let i = pass_other(octets, marks, place, end);
    first_start(octets, marks, i, end)
}
