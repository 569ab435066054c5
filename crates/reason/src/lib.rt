// Why a Start has its outcome (document 02, item 8), in a reading of a job (item 10). Meaning: specs/.
#![tactic(auto)]

ghost use Rattle.std.specs.Prelude.{◌≡◌, ◌≤◌, ◌<◌, length};
ghost use Rattle.line.specs.Limits.{most_symbols, preamble_size, fcs_size};
ghost use Rattle.line.specs.Line.{preamble};
ghost use Rattle.line.specs.Octets.{low_first};
ghost use Rattle.fcs.specs.Fcs.{fcs_of};
ghost use Rattle.table.specs.Entries.{entries_of, address_at};
ghost use Rattle.frame.specs.Frame.{covered};
ghost use Rattle.outcome.specs.Outcomes.{frame_of, check_made};
ghost use Rattle.reason.specs.Reasons.{right_ones, preamble_reason, long_reason, fcs_reason, length_reason, handed_reason, reason_for, explained};

use line::{LEAD_SIZE, LEAST_FRAME, PREAMBLE_SIZE, TAG_SIZE};
use outcome::Judged;
use station::{Address, Outcome, Refusal, Settings};

// The reason of each outcome, with its evidence.
#[derive(Clone, Copy, Debug, PartialEq, Eq)]
pub enum Reason {
    // 1: place and octet of the ending symbol
    CutAt(usize, u8),
    // 2: the run's length, if under 7
    ShortRun(usize),
    // 2: else the first wrong place
    WrongOctet(usize),
    // 3: length and limit
    TooShort(usize, usize),
    // 4: length and limit
    TooLong(usize, usize),
    // 5: the FCS that stands there and the one computed
    FcsDiffers(u32, u32),
    // 6: field and data length
    LengthBroken(u16, usize),
    // 7: the destination
    NotForUs(Address),
    // 8 to 10: the opcode
    TookPause(u16),
    TookPfc(u16),
    DroppedControl(u16),
    // 11: place and length of the data
    Handed(usize, usize),
}

// What the tool answers: `none` and `open` have no reason.
#[derive(Clone, Copy, Debug, PartialEq, Eq)]
pub enum Why {
    Refused(Refusal),
    Nothing,
    Open,
    Because(Reason),
}

#[derive(Clone, Copy, Debug, PartialEq, Eq)]
pub struct Explained {
    pub answer: Why,
    // the Start's place
    pub start: usize,
    // the next place
    pub next: usize,
}

// ---- the evidence

// How many octets of a run stand right before the first that is not as in the preamble.
fn right_ones(run: &[u8]) -> usize
    requires { preamble_size ≤ length run.now }
    ensures { (result ≡ right_ones run.now preamble) × (result ≤ preamble_size) }
{
    let right = [0x55u8, 0x55, 0x55, 0x55, 0x55, 0x55, 0xD5];
    for k in 0..PREAMBLE_SIZE {
        if run[k] != right[k] {
            return k;
        }
    }
    PREAMBLE_SIZE
}

// Bad preamble: of a run whose first octet stands at place `at`.
#[tactic(auto, unfolding(crate::specs::Reasons::preamble_reason))]
fn of_preamble(at: usize, run: &[u8]) -> Reason
    requires { at ≤ 131072 }
    ensures { result ≡ preamble_reason at run.now }
{
    if run.len() < PREAMBLE_SIZE {
        return Reason::ShortRun(run.len());
    }
    Reason::WrongOctet(at + right_ones(run))
}

// Oversized: the limit grows by tag.
#[tactic(auto, unfolding(crate::specs::Reasons::long_reason))]
fn of_long(limit: u16, f: &[u8]) -> Reason
    ensures { result ≡ long_reason limit f.now }
{
    let tags = fields::tag_count(f);
    Reason::TooLong(f.len(), usize::from(limit) + TAG_SIZE * usize::from(tags))
}

// The four octets from `e` on as a number, low octet first; beyond the end they count as 0.
fn four_octets(f: &[u8], e: usize) -> u32
    requires { e ≤ length f.now }
    ensures { result ≡ low_first f.now e fcs_size }
{
    u32::from_le_bytes([
        fields::octet(f, e),
        fields::octet(f, e + 1),
        fields::octet(f, e + 2),
        fields::octet(f, e + 3),
    ])
}

// Wrong FCS: both values, of a frame of which rule 5 made this check.
#[tactic(auto, unfolding(crate::specs::Reasons::fcs_reason, crate::specs::Reasons::received))]
fn of_fcs(f: &[u8], check: u32) -> Reason
    requires { check ≡ fcs_of (covered f.now) }
    ensures { result ≡ fcs_reason f.now }
{
    let e = frame::fcs_place(f);
    Reason::FcsDiffers(four_octets(f, e), check)
}

// Wrong length: field and data length.
#[tactic(auto, unfolding(crate::specs::Reasons::length_reason, frame::specs::Frame::frame_data, fields::specs::Places::layout_of))]
fn of_length(f: &[u8]) -> Reason
    ensures { result ≡ length_reason f.now }
{
    let l = fields::layout_of(f);
    let data = frame::frame_data(f, l.place);
    Reason::LengthBroken(l.field, data.len())
}

// The address in the six octets of the destination.
#[tactic(auto, unfolding(table::specs::Entries::address_at))]
fn destination(f: &[u8]) -> Address
    ensures { result ≡ address_at f.now 0 }
{
    Address([
        fields::octet(f, 0),
        fields::octet(f, 1),
        fields::octet(f, 2),
        fields::octet(f, 3),
        fields::octet(f, 4),
        fields::octet(f, 5),
    ])
}

// Handed out: place and length of the data, of a frame that begins at place `at`.
#[tactic(auto, unfolding(crate::proofs::Opened::of_handed))]
fn of_handed(checking: bool, at: usize, f: &[u8]) -> Reason
    requires { at ≤ 131072 }
    ensures { result ≡ handed_reason checking at f.now }
{
    let l = fields::layout_of(f);
    let place = at + l.place;
    let n = frame::handed_length(checking, l.field, frame::frame_data(f, l.place));
    Reason::Handed(place, n)
}

// The reason of a Start at place `start`, whose run, ended by the control octet `by`, was judged so.
#[tactic(auto, unfolding(crate::specs::Reasons::reason_for))]
fn reason_of(s: Settings, start: usize, run: &[u8], by: u8, j: Judged) -> Reason
    requires { (start ≤ most_symbols) × (length run.now ≤ most_symbols) × (j.check ≡ check_made j.outcome (frame_of run.now)) }
    ensures { result ≡ reason_for s start run.now by j.outcome }
{
    let f = outcome::frame_of(run);
    match j.outcome {
        Outcome::Cut => Reason::CutAt(start + 1 + run.len(), by),
        Outcome::BadPreamble => of_preamble(start + 1, run),
        Outcome::Undersized => Reason::TooShort(f.len(), LEAST_FRAME),
        Outcome::Oversized => of_long(s.limit, f),
        Outcome::WrongFcs => of_fcs(f, j.check),
        Outcome::WrongLength => of_length(f),
        Outcome::Filtered => Reason::NotForUs(destination(f)),
        Outcome::PauseTaken => Reason::TookPause(control::opcode(f)),
        Outcome::PfcTaken => Reason::TookPfc(control::opcode(f)),
        Outcome::ControlDropped => Reason::DroppedControl(control::opcode(f)),
        Outcome::HandedOut => of_handed(s.checking, start + LEAD_SIZE, f),
    }
}

// ---- the call

// Why the first Start at a place or later has its outcome, and the places that its reading gives. No state has a part in it.
pub fn explain(
    s: Settings,
    job: u8,
    table: &[u8; 128],
    octets: &[u8],
    marks: &[u8],
    place: usize,
) -> Explained
    ensures { result ≡ explained s job (entries_of table.now) octets.now marks.now place }
{
    if let Err(x) = receive::check_read(s, job, table, octets, marks, place) {
        return Explained {
            answer: Why::Refused(x),
            start: place,
            next: place,
        };
    }
    let Some(start) = line::find_start(octets, marks, place) else {
        return Explained {
            answer: Why::Nothing,
            start: octets.len(),
            next: octets.len(),
        };
    };
    let from = start + 1;
    let Some(end) = line::find_control(octets, marks, from) else {
        return Explained {
            answer: Why::Open,
            start,
            next: start,
        };
    };
    let run = &octets[from..end];
    let by = octets[end];
    // one Start has no time to make tables
    let j = outcome::judge(None, s, job, table, run, by);
    Explained {
        answer: Why::Because(reason_of(s, start, run, by, j)),
        start,
        next: end,
    }
}
