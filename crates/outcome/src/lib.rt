// What becomes of one run: the table of outcomes and the status word (document 01, "Reading one Start", "Status word"). Meaning: specs/.
#![tactic(auto)]

ghost use Rattle.std.specs.Prelude.{◌≡◌, true, not, cond, ◌&&◌, ◌≤◌, length, take};
ghost use Rattle.line.specs.Limits.{most_symbols};
ghost use Rattle.line.specs.Table.{first};
ghost use Rattle.station.specs.Station.{is_group};
ghost use Rattle.fields.specs.Fields.{destination};
ghost use Rattle.fields.specs.Places.{laid_out};
ghost use Rattle.table.specs.Entries.{own_entries};
ghost use Rattle.frame.specs.Frame.{data_from};
ghost use Rattle.outcome.specs.Outcomes.{bad_preamble, frame_of, outcome, judged};
ghost use Rattle.outcome.specs.Plain.{opening_of, Ordinary, Plain, plain_judged};
ghost use Rattle.outcome.specs.Steps.{early_outcomes, late_outcomes};
ghost use Rattle.outcome.specs.Status.{kind_bits, frame_bits, status_of};

use fcs::Rows;
use fields::Layout;
use line::{LEAST_TYPE, PREAMBLE_SIZE};
use station::{Address, Outcome, Settings};

// The outcome of a run, and the check that rule 5 compared with: 0 where an earlier rule held.
#[derive(Clone, Copy, Debug, PartialEq, Eq)]
pub struct Judged {
    pub outcome: Outcome,
    pub check: u32,
}

// ---- the outcome

// Rule 2: run under 7 octets, or the first 7 wrong.
pub fn bad_preamble(run: &[u8]) -> bool
    ensures { result ≡ bad_preamble run.now }
{
    !run.starts_with(&[0x55, 0x55, 0x55, 0x55, 0x55, 0x55, 0xD5])
}

// The frame of a run: what follows the preamble.
pub fn frame_of(run: &[u8]) -> &[u8]
    ensures { result.now ≡ frame_of run.now }
{
    if run.len() < PREAMBLE_SIZE {
        return &run[..0];
    }
    &run[PREAMBLE_SIZE..]
}

// Rules 1 to 3, in their order.
fn before_tags(run: &[u8], by: u8) -> Option<Outcome>
    ensures { result ≡ first (early_outcomes run.now by) }
{
    if by != 0xFD {
        return Some(Outcome::Cut);
    }
    if bad_preamble(run) {
        return Some(Outcome::BadPreamble);
    }
    let f = frame_of(run);
    if frame::undersized(f) {
        return Some(Outcome::Undersized);
    }
    None
}

// Rules 6 to 11, in their order, of a frame with so many tags; rule 7 by a job's own entries of the address table.
fn after_fcs(s: Settings, job: u8, table: &[u8; 128], f: &[u8], tags: u8) -> Outcome
    ensures { result ≡ first (late_outcomes s (own_entries job table.now) f.now (laid_out tags f.now)) }
{
    if frame::wrong_length(s.checking, f, tags) {
        return Outcome::WrongLength;
    }
    if control::filtered(s, job, table, f) {
        return Outcome::Filtered;
    }
    if control::takes_pause(s, f) {
        return Outcome::PauseTaken;
    }
    if control::takes_pfc(s, f) {
        return Outcome::PfcTaken;
    }
    if control::drops_control(s, f) {
        return Outcome::ControlDropped;
    }
    Outcome::HandedOut
}

// What becomes of a run ended by the control octet `by`: the first rule that holds. In steps, so that a run which rules 1 to 3 decide costs no look at
// the settings, and tags are counted once for rules 4 and 6. The FCS by tables if they are lent, and so public for this repository's crates only.
pub fn judge(
    tables: Option<Rows>,
    s: Settings,
    job: u8,
    table: &[u8; 128],
    run: &[u8],
    by: u8,
) -> Judged
    ensures { result ≡ judged s (own_entries job table.now) run.now by }
{
    if let Some(outcome) = before_tags(run, by) {
        return Judged { outcome, check: 0 };
    }
    let f = frame_of(run);
    let tags = fields::tag_count(f);
    if frame::oversized(s.limit, f, tags) {
        return Judged {
            outcome: Outcome::Oversized,
            check: 0,
        };
    }
    let check = frame::check_of(tables, f);
    if frame::differs(f, check) {
        return Judged {
            outcome: Outcome::WrongFcs,
            check,
        };
    }
    Judged {
        outcome: after_fcs(s, job, table, f, tags),
        check,
    }
}

// ---- the quick way for the frame most seen

// The preamble and the shortest frame.
const LEAST_RUN: usize = 71;

// How a run to an own address opens: the preamble, and that address.
pub fn opening(own: Address) -> [u8; 13]
    ensures { result ≡ opening_of own }
{
    let a = own.0;
    [
        0x55, 0x55, 0x55, 0x55, 0x55, 0x55, 0xD5, a[0], a[1], a[2], a[3], a[4], a[5],
    ]
}

// Whether a run opens so: two comparisons of eight octets, which share three.
fn opens(want: &[u8], run: &[u8]) -> bool
    requires { (length want.now ≡ 13) × (13 ≤ length run.now) }
    ensures { result ≡ true → take 13 run.now ≡ want.now }
{
    if line::eight(run, 0) != line::eight(want, 0) {
        return false;
    }
    line::eight(run, 5) == line::eight(want, 5)
}

// Whether a first field is a type, and neither a tag nor that of a control frame.
fn is_ordinary(field: u16) -> bool
    ensures { result ≡ true → Ordinary field }
{
    if field < LEAST_TYPE {
        return false;
    }
    if fields::is_tag_kind(field) {
        return false;
    }
    field != 0x8808
}

// Whether a run is that of a plain frame: opening so, under that limit. The promise goes one way: all else goes by the rules.
pub fn is_plain(want: &[u8; 13], limit: u16, run: &[u8], by: u8) -> bool
    ensures { result ≡ true → Plain want.now limit run.now by }
{
    if by != 0xFD {
        return false;
    }
    if run.len() < LEAST_RUN {
        return false;
    }
    if usize::from(limit) + PREAMBLE_SIZE < run.len() {
        return false;
    }
    if !opens(want, run) {
        return false;
    }
    if want[PREAMBLE_SIZE] % 2 == 1 {
        return false;
    }
    is_ordinary(fields::high_first(run, 19))
}

// What becomes of a plain frame: rule 5 decides alone.
pub fn judge_plain(tables: Option<Rows>, run: &[u8]) -> Judged
    ensures { result ≡ plain_judged run.now }
{
    let f = frame_of(run);
    let check = frame::check_of(tables, f);
    if frame::differs(f, check) {
        return Judged {
            outcome: Outcome::WrongFcs,
            check,
        };
    }
    Judged {
        outcome: Outcome::HandedOut,
        check,
    }
}

// ---- the status word

// The bits of `value` where `b`.
fn flag(b: bool, value: u64) -> u64
    ensures { (result ≡ cond b value 0) × (result ≤ value) }
{
    if b { value } else { 0 }
}

// Whether the destination has its group bit.
fn to_group(f: &[u8]) -> bool
    ensures { result ≡ is_group (destination f.now) }
{
    fields::octet(f, 0) % 2 == 1
}

// What destination, first field and the number of tags decide: bits 38 to 32.
pub fn kind_bits(f: &[u8], tags: u8) -> u64
    ensures { (result ≡ kind_bits tags f.now) × (result ≤ 0x77_0000_0000) }
{
    let group = to_group(f);
    let broadcast = address::is_broadcast(f);
    let b38 = flag(!group, 0x40_0000_0000);
    // multicast other than broadcast
    let b37 = flag(group && !broadcast, 0x20_0000_0000);
    let b36 = flag(broadcast, 0x10_0000_0000);
    let b34 = flag(control::is_control_frame(f), 0x4_0000_0000);
    let b33 = flag(tags == 1, 0x2_0000_0000);
    let b32 = flag(2 <= tags, 0x1_0000_0000);
    b38 + b37 + b36 + b34 + b33 + b32
}

// What the frame alone decides, its number of tags given: bits 38 to 16.
fn frame_bits(f: &[u8], tags: u8) -> u64
    requires { length f.now ≤ most_symbols }
    ensures { (result ≡ frame_bits tags f.now) × (result ≤ 0x80_0000_0000) }
{
    kind_bits(f, tags) + (f.len() as u64) * 0x1_0000
}

// The number of data octets, of a frame whose data begins at `place`.
fn data_length(f: &[u8], place: usize) -> u64
    requires { length f.now ≤ most_symbols }
    ensures { (result ≡ length (data_from place f.now)) × (result ≤ most_symbols) }
{
    frame::frame_data(f, place).len() as u64
}

// The status word of a frame laid out as `l` says, of which `handed` octets are handed out: 0 for outcomes 1 to 7. The bounds keep its sums from
// wrapping; so it is public for this repository's crates only.
pub fn status(o: Outcome, f: &[u8], l: Layout, handed: usize) -> u64
    requires { (length f.now ≤ most_symbols) × (handed ≤ most_symbols) }
    ensures { result ≡ status_of o f.now l.tags (length (data_from l.place f.now)) handed }
{
    match o {
        Outcome::PauseTaken => 0x8_0000_0000 + frame_bits(f, l.tags) + data_length(f, l.place),
        Outcome::PfcTaken => 0x80_0000_0000 + frame_bits(f, l.tags) + data_length(f, l.place),
        Outcome::ControlDropped => frame_bits(f, l.tags) + data_length(f, l.place),
        Outcome::HandedOut => frame_bits(f, l.tags) + (handed as u64),
        _ => 0,
    }
}
