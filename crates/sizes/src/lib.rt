// The size table for a day of captures (document 02, item 13). Meaning: specs/.
#![tactic(auto)]

ghost use Rattle.std.specs.Prelude.{◌≡◌, ◌<◌};
ghost use Rattle.line.specs.Table.{first};
ghost use Rattle.station.specs.Station.{fresh};
ghost use Rattle.table.specs.Entries.{entries_of};
ghost use Rattle.receive.specs.Reading.{read_refusals};
ghost use Rattle.receive.specs.Walk.{walk};
ghost use Rattle.sizes.specs.Sizes.{band, raised, with_frame, sized, with_frames, frame_lengths, fresh_sizes, adding, together, add_tables};

use fcs::Rows;
use station::{Outcome, Refusal, Settings};

// Frames and octets of each band, from the shortest frames up.
#[derive(Clone, Copy)]
pub struct SizeTable {
    pub frames: [u64; 7],
    pub octets: [u64; 7],
}

// What adding a capture gives: its refusal, if any, and the table.
#[derive(Clone, Copy)]
pub struct Added {
    pub answer: Result<(), Refusal>,
    pub sizes: SizeTable,
}

// A table with nothing in it.
pub fn fresh_sizes() -> SizeTable
    ensures { result ≡ fresh_sizes }
{
    SizeTable {
        frames: [0u64; 7],
        octets: [0u64; 7],
    }
}

// ---- one frame

// The band of a frame length.
fn band_of(n: usize) -> usize
    ensures { (result ≡ band n) × (result < 7) }
{
    if n <= 64 {
        return 0;
    }
    if n <= 127 {
        return 1;
    }
    if n <= 255 {
        return 2;
    }
    if n <= 511 {
        return 3;
    }
    if n <= 1023 {
        return 4;
    }
    if n <= 1518 {
        return 5;
    }
    6
}

// A count rises by n, and rolls over.
#[tactic(auto, unfolding(crate::specs::Sizes::raised))]
fn raise(counts: &mut [u64; 7], i: usize, n: u64)
    requires { i < 7 }
    ensures { counts.new ≡ raised counts.old i n }
{
    counts[i] = counts[i].wrapping_add(n);
}

// One frame more, of n octets. The counts stay where they are: a table copied for each frame would be a tenth of a walk.
fn put_frame(frames: &mut [u64; 7], octets: &mut [u64; 7], n: usize)
    ensures frames_after { frames.new ≡ raised frames.old (band n) 1 }
    ensures octets_after { octets.new ≡ raised octets.old (band n) n }
{
    let i = band_of(n);
    raise(frames, i, 1);
    raise(octets, i, n as u64);
}

// The table with one frame more, of n octets.
pub fn add_frame(t: SizeTable, n: usize) -> SizeTable
    ensures { result ≡ with_frame t n }
{
    let mut frames = t.frames;
    let mut octets = t.octets;
    put_frame(&mut frames, &mut octets, n);
    SizeTable { frames, octets }
}

// ---- a capture

// Whether frames of an outcome are added.
#[tactic(auto, using(crate::proofs::Laws::sized_none), unfolding(crate::specs::Sizes::sized))]
fn is_sized(o: Outcome) -> bool
    ensures { result ≡ sized o }
{
    matches!(
        o,
        Outcome::PauseTaken | Outcome::PfcTaken | Outcome::ControlDropped | Outcome::HandedOut
    )
}

// The table with the frames of a capture that is not refused, the FCS by tables if they are lent. It walks as `receive::walk` does, without counters
// and timers; a loop of its own, as is said there.
fn add_walk(
    tables: Option<Rows>,
    t: SizeTable,
    s: Settings,
    job: u8,
    table: &[u8; 128],
    octets: &[u8],
    marks: &[u8],
) -> SizeTable
    requires { first (read_refusals s job (entries_of table.now) octets.now marks.now 0) ≡ Ok tt }
    ensures { result ≡ with_frames t (frame_lengths (walk s job (entries_of table.now) fresh octets.now marks.now)) }
{
    let mut frames = t.frames;
    let mut lengths = t.octets;
    let want = outcome::opening(s.own);
    let limit = s.limit;
    let mut at: usize = 0;
    loop {
        let Some(start) = line::find_start(octets, marks, at) else {
            return SizeTable {
                frames,
                octets: lengths,
            };
        };
        let from = start + 1;
        let Some(end) = line::find_control(octets, marks, from) else {
            return SizeTable {
                frames,
                octets: lengths,
            };
        };
        // the frame most seen by the quick way, as in `receive::walk`
        let judged = if outcome::is_plain(&want, limit, &octets[from..end], octets[end]) {
            outcome::judge_plain(tables, &octets[from..end])
        } else {
            outcome::judge(tables, s, job, table, &octets[from..end], octets[end])
        };
        let o = judged.outcome;
        if is_sized(o) {
            let f = outcome::frame_of(&octets[from..end]);
            put_frame(&mut frames, &mut lengths, f.len());
        }
        at = end;
    }
}

// A whole capture: its frames of outcomes 8 to 11, each in its band; or the refusal, which is a walk's, and nothing added. In a long capture the
// tables of the FCS are made once and lent.
pub fn add_capture(
    t: SizeTable,
    s: Settings,
    job: u8,
    table: &[u8; 128],
    octets: &[u8],
    marks: &[u8],
) -> Added
    ensures { result ≡ adding t s job (entries_of table.now) octets.now marks.now }
{
    if let Err(x) = receive::check_read(s, job, table, octets, marks, 0) {
        return Added {
            answer: Err(x),
            sizes: t,
        };
    }
    if !receive::tables_pay(octets, marks, 0) {
        return Added {
            answer: Ok(()),
            sizes: add_walk(None, t, s, job, table, octets, marks),
        };
    }
    let mut lent = [0u32; 4096];
    fcs::make_tables(&mut lent);
    let rows = Rows { t: &lent };
    Added {
        answer: Ok(()),
        sizes: add_walk(Some(rows), t, s, job, table, octets, marks),
    }
}

// ---- two tables

// Each count with its own.
fn add_counts(mut a: [u64; 7], b: [u64; 7]) -> [u64; 7]
    ensures { result ≡ together a b }
{
    for k in 0..7 {
        raise(&mut a, k, b[k]);
    }
    a
}

// Two tables in one.
pub fn add_tables(t: SizeTable, u: SizeTable) -> SizeTable
    ensures { result ≡ add_tables t u }
{
    SizeTable {
        frames: add_counts(t.frames, u.frames),
        octets: add_counts(t.octets, u.octets),
    }
}
