// What the plain reader keeps of a run (document 02, item 12), and document 01's rules, asked of that: no rule needs the run itself. Meaning: specs/.
#![tactic(auto)]

ghost use Rattle.std.specs.Prelude.{◌≡◌, not, ◌&&◌, ◌||◌, ◌+◌, ◌-◌, ◌≤◌, ◌<◌, ltb};
ghost use Rattle.line.specs.Limits.{most_symbols, preamble_size, fcs_size};
ghost use Rattle.line.specs.Octets.{same_octets};
ghost use Rattle.line.specs.Table.{first};
ghost use Rattle.fcs.specs.Fcs.{fcs_octets};
ghost use Rattle.table.specs.Entries.{entries_of, own_entries};
ghost use Rattle.frame.specs.Length.{kept};
ghost use Rattle.outcome.specs.Outcomes.{bad_preamble};
ghost use Rattle.outcome.specs.Status.{word_of};
ghost use Rattle.receive.specs.Reading.{state_after};
ghost use Rattle.kept.specs.Kept.{begun, front_of, frame_size, later_outcomes, frame_outcomes, kept_outcome, part_from, kept_told, symbol_refusals};

use fields::Layout;
use line::{FCS_SIZE, LEAD_SIZE, LEAST_FRAME, MOST_SYMBOLS, PREAMBLE_SIZE, TAG_SIZE};
use station::{Outcome, Part, Refusal, Settings, State};

// What is kept of a run.
#[derive(Clone, Copy)]
pub struct Run {
    // the place of its Start
    pub start: u32,
    // how many octets it has: 65,535 at most
    pub count: u16,
    // the first of them: the preamble, and of the frame what its rules look at
    pub first: [u8; 53],
    // the last four of them, which may be the FCS
    pub last: [u8; 4],
    // the register of the FCS after those between the preamble and the last four
    pub register: u32,
}

// What the reader tells at a symbol.
#[derive(Clone, Copy, Debug, PartialEq, Eq)]
pub enum Told {
    Refused(Refusal),
    // no run ended here
    Quiet,
    // outcome, status word, the client data's place and length in the capture (0 and 0 for outcomes 1 to 10), and which address let the frame in (0 for
    // outcomes 1 to 7)
    Counted(Outcome, u64, Part, u8),
}

// A run of no octets, behind a Start at this place.
#[tactic(auto, unfolding(crate::specs::Kept::begun))]
pub fn begun(start: u32) -> Run
    ensures { result ≡ begun start }
{
    Run {
        start,
        count: 0,
        first: [0u8; 53],
        last: [0u8; 4],
        register: 0xFFFF_FFFF,
    }
}

// ---- sizes

// How many octets the frame has.
#[tactic(auto, unfolding(crate::specs::Kept::frame_size))]
fn size(r: Run) -> usize
    ensures { (result ≡ frame_size r) × (result < 65536) }
{
    usize::from(r.count).saturating_sub(PREAMBLE_SIZE)
}

// How many of a frame's octets are data, which begins at `place`.
fn data_length(size: usize, place: usize) -> usize
    ensures { (result ≡ size - fcs_size - place) × (result ≤ size) }
{
    size.saturating_sub(FCS_SIZE).saturating_sub(place)
}

// ---- the outcome

// Rule 2: run under 7 octets, or the first 7 wrong.
fn wrong_preamble(r: Run) -> bool
    ensures { result ≡ (ltb r.count preamble_size || bad_preamble r.first) }
{
    usize::from(r.count) < PREAMBLE_SIZE || outcome::bad_preamble(&r.first)
}

// Rule 5: the last four octets differ from the check, which is the register's complement.
#[tactic(auto, unfolding(frame::specs::Frame::last_four))]
fn wrong_fcs(r: Run) -> bool
    ensures { result ≡ not (same_octets r.last (fcs_octets (0xFFFF_FFFF - r.register))) }
{
    frame::differs(&r.last, 0xFFFF_FFFF - r.register)
}

// Rule 6, of a frame's layout and the number of its data octets.
fn wrong_length(checking: bool, l: Layout, octets: usize) -> bool
    ensures { result ≡ (checking && not (kept l.tags l.field octets)) }
{
    checking && !frame::length_kept(l.tags, l.field, octets)
}

// Rules 7 to 11, of the frame's first octets. Rule 7 is asked of item 7's number: `control::filtered` has one caller, and so stays inside
// `outcome::judge`, where a second one would cost a walk 32 instructions a frame.
#[tactic(auto, unfolding(crate::specs::Kept::later_outcomes, line::specs::Table::first))]
fn later_outcome(s: Settings, job: u8, table: &[u8; 128], f: &[u8]) -> Outcome
    ensures { result ≡ first (later_outcomes s (own_entries job table.now) f.now) }
{
    if control::frame_way(s, job, table, f) == 0 {
        return Outcome::Filtered;
    }
    if control::takes_pause(s, f) {
        return Outcome::PauseTaken;
    }
    if control::takes_pfc(s, f) {
        return Outcome::PfcTaken;
    }
    if control::drops_control(s, f) {
        return Outcome::ControlDropped;
    }
    Outcome::HandedOut
}

// Rules 3 to 11, of a frame whose first octets are `f`.
#[tactic(auto, unfolding(crate::proofs::Opened::of_frame_outcome))]
fn frame_outcome(s: Settings, job: u8, table: &[u8; 128], r: Run, f: &[u8]) -> Outcome
    requires { f.now ≡ front_of r }
    ensures { result ≡ first (frame_outcomes s (own_entries job table.now) r) }
{
    let n = size(r);
    if n < LEAST_FRAME {
        return Outcome::Undersized;
    }
    let l = fields::layout_of(f);
    if usize::from(s.limit) + TAG_SIZE * usize::from(l.tags) < n {
        return Outcome::Oversized;
    }
    if wrong_fcs(r) {
        return Outcome::WrongFcs;
    }
    if wrong_length(s.checking, l, data_length(n, l.place)) {
        return Outcome::WrongLength;
    }
    later_outcome(s, job, table, f)
}

// The outcome of a run ended by the control octet `by`: the first rule that holds.
#[tactic(auto, unfolding(crate::proofs::Opened::of_outcome))]
pub fn outcome_of(s: Settings, job: u8, table: &[u8; 128], r: Run, by: u8) -> Outcome
    ensures { result ≡ kept_outcome s (own_entries job table.now) r by }
{
    if by != 0xFD {
        return Outcome::Cut;
    }
    if wrong_preamble(r) {
        return Outcome::BadPreamble;
    }
    frame_outcome(s, job, table, r, &r.first[PREAMBLE_SIZE..])
}

// ---- what is told of it

// The status word, of bits 38 to 16, the number of data octets and of those handed out.
fn word_of(o: Outcome, bits: u64, all: usize, handed: usize) -> u64
    requires { (bits ≤ 0x80_0000_0000) × (all ≤ most_symbols) × (handed ≤ most_symbols) }
    ensures { result ≡ word_of o bits all handed }
{
    match o {
        Outcome::PauseTaken => 0x8_0000_0000 + bits + (all as u64),
        Outcome::PfcTaken => 0x80_0000_0000 + bits + (all as u64),
        Outcome::ControlDropped => bits + (all as u64),
        Outcome::HandedOut => bits + (handed as u64),
        _ => 0,
    }
}

// The client data's part, of a frame that begins at `at` and whose data begins at `place` in it.
fn part_of(o: Outcome, at: usize, place: usize, handed: usize) -> Part
    requires { at + place ≤ 0x2_0000_0000 }
    ensures { result ≡ part_from o at place handed }
{
    match o {
        Outcome::HandedOut => Part {
            at: at + place,
            len: handed,
        },
        _ => Part { at: 0, len: 0 },
    }
}

// All that is told of a run with this outcome, whose frame's first octets are `f`.
#[tactic(auto, unfolding(crate::proofs::Opened::of_frame_told))]
fn frame_told(s: Settings, job: u8, table: &[u8; 128], r: Run, o: Outcome, f: &[u8]) -> Told
    requires { f.now ≡ front_of r }
    ensures { result ≡ kept_told s (own_entries job table.now) o r }
{
    let n = size(r);
    let l = fields::layout_of(f);
    let all = data_length(n, l.place);
    let handed = frame::handed_count(s.checking, l.field, all);
    let bits = outcome::kind_bits(f, l.tags) + (n as u64) * 0x1_0000;
    let word = word_of(o, bits, all, handed);
    let part = part_of(o, (r.start as usize) + LEAD_SIZE, l.place, handed);
    let way = control::way_carried(s, job, table, o, f);
    Told::Counted(o, word, part, way)
}

// The same of the run.
#[tactic(auto, unfolding(crate::specs::Kept::front_of))]
pub fn told_of(s: Settings, job: u8, table: &[u8; 128], r: Run, o: Outcome) -> Told
    ensures { result ≡ kept_told s (own_entries job table.now) o r }
{
    frame_told(s, job, table, r, o, &r.first[PREAMBLE_SIZE..])
}

// The state after it: its counter rises, and a control frame may set timers.
#[tactic(auto, unfolding(crate::specs::Kept::front_of, receive::specs::Reading::state_after))]
pub fn state_of(o: Outcome, r: Run, state: State) -> State
    ensures { result ≡ state_after o (front_of r) state }
{
    let mut counters = state.counters;
    station::count(o, &mut counters);
    let timers = flow::timers_after(o, &r.first[PREAMBLE_SIZE..], state.timers);
    State {
        counters,
        timers,
        deficit: state.deficit,
    }
}

// ---- refusals

// The refusals of a symbol, in their order, where so many were taken.
#[tactic(auto, unfolding(crate::specs::Kept::symbol_refusals, line::specs::Table::first))]
pub fn check_symbol(s: Settings, job: u8, table: &[u8; 128], taken: u32) -> Result<(), Refusal>
    ensures { result ≡ first (symbol_refusals s job (entries_of table.now) taken) }
{
    if station::bad_settings(s) {
        return Err(Refusal::BadSettings);
    }
    if table::bad_job(job) {
        return Err(Refusal::BadJob);
    }
    if table::bad_table(table) {
        return Err(Refusal::BadTable);
    }
    if MOST_SYMBOLS <= taken as usize {
        return Err(Refusal::BadBuffers);
    }
    Ok(())
}
