// What crosses the C face (include/fenhamper.h): a record crosses to the module as the array of its octets, or of its numbers of 64 bits, and an answer
// crosses back so. Public for this repository's crates only: `fenhamper` makes the exported functions of these. Meaning: specs/.
#![tactic(auto)]

ghost use Rattle.std.specs.Prelude.{◌≡◌, [], ◌∷◌, ◌+◌, ◌<◌, ◌≤◌, length};
ghost use Rattle.line.specs.Octets.{low_first};
ghost use Rattle.station.specs.Numbers.{refusal_number, checked_number};
ghost use Rattle.table.specs.Entries.{address_at};
ghost use Rattle.reason.specs.Values.{reason_number};
ghost use Rattle.reading_log.specs.Numbers.{logged_refusal};
ghost use Rattle.crossing.specs.Records.{flow_of, settings_of, counters_of, timers_of, state_of, port_of};
ghost use Rattle.crossing.specs.Records.{kind_of, tag_at, counted_tag, tags_of, form_of, client_of, classes_of, record_named};
ghost use Rattle.crossing.specs.Records.{state_numbers, reading_numbers, six_number, reason_numbers, explain_numbers};
ghost use Rattle.crossing.specs.Records.{walk_numbers, sent_numbers, keep_refusal_number, keep_numbers, part_within};
ghost use Rattle.crossing.specs.Given.{state_left, record_given, record_told, number_given, number_told, entry_told};
ghost use Rattle.crossing.specs.Reader.{run_of, plain_of, plain_numbers, told_numbers, reader_given, reader_told, reader_left, counted_left};
ghost use Rattle.crossing.specs.Bands.{sizes_of, sizes_numbers};

use kept::{Run, Told};
use logging::{KeepRefusal, LogEnd, LogWalk};
use plain::Plain;
use reading_log::{LogRefusal, Record};
use reason::{Explained, Reason, Why};
use receive::{Answer, Reading, Walking};
use send::Sending;
use sizes::SizeTable;
use station::{Address, Flow, Port, Quanta, Refusal, Settings, Slots, State};
use writing::{Classes, Client, Form, Kind, Tag};

// ---- what crosses to the module

// The number in two octets from `at` on, low octet first.
#[tactic(auto, unfolding(line::specs::Octets::low_first))]
fn low_pair(o: &[u8], at: usize) -> u16
    requires { at + 2 ≤ length o.now }
    ensures { result ≡ low_first o.now at 2 }
{
    u16::from_le_bytes([o[at], o[at + 1]])
}

// The C interface says what each octet stands for, here and in `kind` and `port_of`; a `From` would have to stand in the crate of the type, which knows of
// no such octets.
#[tactic(auto, unfolding(crate::specs::Records::flow_of))]
fn flow_mode(n: u8) -> Flow
    ensures { result ≡ flow_of n }
{
    match n {
        1 => Flow::Pause,
        2 => Flow::Pfc,
        _ => Flow::Off,
    }
}

// The address in six octets from `at` on.
#[tactic(auto, unfolding(table::specs::Entries::address_at))]
pub fn address(o: &[u8], at: usize) -> Address
    requires { at + 6 ≤ length o.now }
    ensures { result ≡ address_at o.now at }
{
    Address([o[at], o[at + 1], o[at + 2], o[at + 3], o[at + 4], o[at + 5]])
}

#[tactic(auto, unfolding(crate::specs::Records::settings_of, crate::specs::Records::is_on))]
pub fn settings(o: &[u8; 24]) -> Settings
    ensures { result ≡ settings_of o.now }
{
    Settings {
        own: address(o, 0),
        broadcast: o[6] != 0,
        promiscuous: o[7] != 0,
        checking: o[8] != 0,
        limit: low_pair(o, 12),
        flow: flow_mode(o[10]),
        passing: o[9] != 0,
    }
}

// A counter crosses whole. Here and below element by element: a copy by a loop may become a call of `memcpy`.
#[tactic(auto, unfolding(crate::specs::Records::counters_of, crate::specs::Records::at_places))]
pub fn counters(n: &[u64; 24]) -> [u64; 11]
    ensures { result ≡ counters_of n.now }
{
    [
        n[0], n[1], n[2], n[3], n[4], n[5], n[6], n[7], n[8], n[9], n[10],
    ]
}

// Of each number the low 32 bits; here and below `%` says how many bits are read, which a cast alone does not.
#[tactic(auto, unfolding(crate::specs::Records::timers_of, crate::specs::Records::at_places, crate::specs::Records::low_at))]
fn timers(n: &[u64; 24]) -> [Slots; 8]
    ensures { result ≡ timers_of n.now }
{
    [
        Slots((n[11] % 4294967296) as u32),
        Slots((n[12] % 4294967296) as u32),
        Slots((n[13] % 4294967296) as u32),
        Slots((n[14] % 4294967296) as u32),
        Slots((n[15] % 4294967296) as u32),
        Slots((n[16] % 4294967296) as u32),
        Slots((n[17] % 4294967296) as u32),
        Slots((n[18] % 4294967296) as u32),
    ]
}

#[tactic(auto, unfolding(crate::specs::Records::state_of))]
pub fn state_of(n: &[u64; 24]) -> State
    ensures { result ≡ state_of n.now }
{
    State {
        counters: counters(n),
        timers: timers(n),
        deficit: n[19],
    }
}

#[tactic(auto, unfolding(crate::specs::Records::kind_of))]
fn kind(n: u8) -> Kind
    ensures { result ≡ kind_of n }
{
    match n {
        0 => Kind::Customer,
        _ => Kind::Service,
    }
}

#[tactic(auto, unfolding(crate::specs::Records::port_of))]
pub fn port_of(n: u8) -> Port
    ensures { result ≡ port_of n }
{
    match n {
        0 => Port::Plain,
        _ => Port::FourLane,
    }
}

// The tag in four octets from `at` on.
#[tactic(auto, unfolding(crate::specs::Records::tag_at))]
fn tag(o: &[u8; 44], at: usize) -> Tag
    requires { at + 4 ≤ 44 }
    ensures { result ≡ tag_at o.now at }
{
    Tag {
        kind: kind(o[at]),
        control: low_pair(o, at + 2),
    }
}

// What stands for a tag that does not count.
const NO_TAG: Tag = Tag {
    kind: Kind::Customer,
    control: 0,
};

// Tag k, if it counts.
#[tactic(auto, unfolding(crate::specs::Records::counted_tag))]
fn counted_tag(o: &[u8; 44], k: u8) -> Tag
    requires { k < 8 }
    ensures { result ≡ counted_tag o.now k }
{
    if k < o[10] {
        tag(o, 12 + 4 * usize::from(k))
    } else {
        NO_TAG
    }
}

// Most frames have no tag: then that is one test.
#[tactic(auto, unfolding(crate::specs::Records::tags_of, crate::specs::Records::at_places, crate::specs::Records::counted_tag))]
fn tags(o: &[u8; 44]) -> [Tag; 8]
    ensures { result ≡ tags_of o.now }
{
    if o[10] == 0 {
        return [NO_TAG; 8];
    }
    [
        counted_tag(o, 0),
        counted_tag(o, 1),
        counted_tag(o, 2),
        counted_tag(o, 3),
        counted_tag(o, 4),
        counted_tag(o, 5),
        counted_tag(o, 6),
        counted_tag(o, 7),
    ]
}

#[tactic(auto, unfolding(crate::specs::Records::form_of))]
fn form(o: &[u8; 44]) -> Form
    ensures { result ≡ form_of o.now }
{
    match o[7] {
        0 => Form::ByLength,
        _ => Form::ByType(low_pair(o, 8)),
    }
}

#[tactic(auto, unfolding(crate::specs::Records::client_of))]
pub fn client(o: &[u8; 44]) -> Client
    ensures { result ≡ client_of o.now }
{
    Client {
        dest: address(o, 0),
        tags: tags(o),
        count: o[10],
        form: form(o),
        class: o[6],
    }
}

// By `q.map(Quanta)` the search did not close the contract.
#[tactic(auto, unfolding(crate::specs::Records::classes_of, crate::specs::Records::at_places))]
pub fn classes(named: u8, q: &[u16; 8]) -> Classes
    ensures { result ≡ classes_of named q.now }
{
    let quanta = [
        Quanta(q[0]),
        Quanta(q[1]),
        Quanta(q[2]),
        Quanta(q[3]),
        Quanta(q[4]),
        Quanta(q[5]),
        Quanta(q[6]),
        Quanta(q[7]),
    ];
    Classes { named, quanta }
}

// The record of a reading, of its numbers: of each its low bits, as many as the field has.
#[tactic(auto, unfolding(crate::specs::Records::record_named, crate::specs::Records::low_at))]
pub fn record_named(n: &[u64; 12]) -> Record
    ensures { result ≡ record_named n.now }
{
    Record {
        place: (n[3] % 4294967296) as u32,
        outcome: (n[2] % 256) as u8,
        way: (n[8] % 256) as u8,
        handed: (n[7] % 65536) as u16,
        status: n[5],
    }
}

// What the plain reader keeps of a run: of each number its low bits, as many as the field has.
#[tactic(auto, unfolding(crate::specs::Reader::run_of, crate::specs::Records::low_at))]
fn run_of(n: &[u64; 8], first: [u8; 53], last: [u8; 4]) -> Run
    ensures { result ≡ run_of n.now first last }
{
    Run {
        start: (n[2] % 4294967296) as u32,
        count: (n[3] % 65536) as u16,
        first,
        last,
        register: (n[4] % 4294967296) as u32,
    }
}

#[tactic(auto, unfolding(crate::specs::Reader::plain_of, crate::specs::Records::is_on, crate::specs::Records::low_at))]
pub fn plain_of(n: &[u64; 8], first: [u8; 53], last: [u8; 4], state: State) -> Plain
    ensures { result ≡ plain_of n.now first last state }
{
    Plain {
        place: (n[0] % 4294967296) as u32,
        running: n[1] != 0,
        run: run_of(n, first, last),
        state,
    }
}

// A size table, of the frames of its bands and then their octets. A count crosses whole.
#[tactic(auto, unfolding(crate::specs::Bands::sizes_of, crate::specs::Records::at_places))]
pub fn sizes_of(n: &[u64; 14]) -> SizeTable
    ensures { result ≡ sizes_of n.now }
{
    SizeTable {
        frames: [n[0], n[1], n[2], n[3], n[4], n[5], n[6]],
        octets: [n[7], n[8], n[9], n[10], n[11], n[12], n[13]],
    }
}

// ---- what crosses back

#[tactic(auto, unfolding(crate::specs::Records::state_numbers, crate::specs::Records::at_places, flow::specs::Timers::timer))]
pub fn state_numbers(state: State) -> [u64; 24]
    ensures { result ≡ state_numbers state }
{
    let c = state.counters;
    let t = state.timers;
    [
        c[0],
        c[1],
        c[2],
        c[3],
        c[4],
        c[5],
        c[6],
        c[7],
        c[8],
        c[9],
        c[10],
        u64::from(t[0].0),
        u64::from(t[1].0),
        u64::from(t[2].0),
        u64::from(t[3].0),
        u64::from(t[4].0),
        u64::from(t[5].0),
        u64::from(t[6].0),
        u64::from(t[7].0),
        state.deficit,
        0,
        0,
        0,
        0,
    ]
}

#[tactic(auto, unfolding(crate::specs::Records::reading_numbers))]
pub fn reading_numbers(r: Reading) -> [u64; 12]
    ensures { result ≡ reading_numbers r }
{
    let start = r.start as u64;
    let next = r.next as u64;
    match r.answer {
        Answer::Refused(x) => {
            let n = u64::from(station::refusal_number(x));
            [n, 0, 0, start, next, 0, 0, 0, 0, 0, 0, 0]
        }
        Answer::Nothing => [0, 1, 0, start, next, 0, 0, 0, 0, 0, 0, 0],
        Answer::Open => [0, 2, 0, start, next, 0, 0, 0, 0, 0, 0, 0],
        Answer::Counted(outcome, status, part, way) => {
            let n = u64::from(station::outcome_number(outcome));
            let w = u64::from(way);
            [
                0,
                0,
                n,
                start,
                next,
                status,
                part.at as u64,
                part.len as u64,
                w,
                0,
                0,
                0,
            ]
        }
    }
}

// Six octets as one number, the first octet highest.
#[tactic(auto, unfolding(crate::specs::Records::six_number))]
fn six_number(d: Address) -> u64
    ensures { result ≡ six_number d }
{
    let o = d.0;
    u64::from_be_bytes([0, 0, o[0], o[1], o[2], o[3], o[4], o[5]])
}

// The number of the outcome that a reason is for, and the reason's three.
#[tactic(auto, unfolding(crate::specs::Records::reason_numbers))]
fn reason_numbers(r: Reason) -> [u64; 4]
    ensures { result ≡ reason_number r ∷ reason_numbers r }
{
    match r {
        Reason::CutAt(place, by) => [1, 1, place as u64, u64::from(by)],
        Reason::ShortRun(length) => [2, 2, length as u64, 0],
        Reason::WrongOctet(place) => [2, 3, place as u64, 0],
        Reason::TooShort(length, limit) => [3, 4, length as u64, limit as u64],
        Reason::TooLong(length, limit) => [4, 5, length as u64, limit as u64],
        Reason::FcsDiffers(there, made) => [5, 6, u64::from(there), u64::from(made)],
        Reason::LengthBroken(field, length) => [6, 7, u64::from(field), length as u64],
        Reason::NotForUs(d) => [7, 8, six_number(d), 0],
        Reason::TookPause(opcode) => [8, 9, u64::from(opcode), 0],
        Reason::TookPfc(opcode) => [9, 10, u64::from(opcode), 0],
        Reason::DroppedControl(opcode) => [10, 11, u64::from(opcode), 0],
        Reason::Handed(place, length) => [11, 12, place as u64, length as u64],
    }
}

#[tactic(auto, unfolding(crate::specs::Records::explain_numbers, crate::specs::Records::why_reason))]
pub fn explain_numbers(e: Explained) -> [u64; 8]
    ensures { result ≡ explain_numbers e }
{
    let start = e.start as u64;
    let next = e.next as u64;
    match e.answer {
        Why::Refused(x) => {
            let n = u64::from(station::refusal_number(x));
            [n, 0, 0, start, next, 0, 0, 0]
        }
        Why::Nothing => [0, 1, 0, start, next, 0, 0, 0],
        Why::Open => [0, 2, 0, start, next, 0, 0, 0],
        Why::Because(r) => {
            let n = reason_numbers(r);
            [0, 0, n[0], start, next, n[1], n[2], n[3]]
        }
    }
}

#[tactic(auto, unfolding(crate::specs::Records::walk_numbers))]
pub fn walk_numbers(w: Walking) -> [u64; 4]
    ensures { result ≡ walk_numbers w }
{
    match w.answer {
        Err(x) => [u64::from(station::refusal_number(x)), 0, 0, 0],
        Ok(end) => [0, end.starts as u64, u64::from(end.is_open), 0],
    }
}

#[tactic(auto, unfolding(crate::specs::Records::sent_numbers))]
pub fn sent_numbers(s: Sending) -> [u64; 2]
    ensures { result ≡ sent_numbers s }
{
    [u64::from(checked_number(s.answer)), s.place as u64]
}

// The same of a call that was refused.
pub fn refused_numbers(x: Refusal, place: usize) -> [u64; 2]
    ensures { result ≡ refusal_number x ∷ place ∷ [] }
{
    [u64::from(station::refusal_number(x)), place as u64]
}

// The number of a refusal of a walk that keeps its readings.
fn keep_refusal(x: KeepRefusal) -> u64
    ensures { result ≡ keep_refusal_number x }
{
    match x {
        KeepRefusal::ByReading(r) => u64::from(station::refusal_number(r)),
        KeepRefusal::ByLog(r) => u64::from(reading_log::refusal_number(r)),
    }
}

#[tactic(auto, unfolding(crate::specs::Records::keep_numbers))]
pub fn keep_numbers(w: LogWalk) -> [u64; 4]
    ensures { result ≡ keep_numbers w }
{
    let next = w.next as u64;
    let kept = w.kept as u64;
    match w.end {
        LogEnd::Refused(x) => [keep_refusal(x), 0, next, kept],
        LogEnd::Nothing => [0, 1, next, kept],
        LogEnd::Open => [0, 2, next, kept],
        LogEnd::Full => [0, 3, next, kept],
    }
}

// The number of a log's refusal, 0 if the call went on.
pub fn logged_number(a: Result<(), LogRefusal>) -> u32
    ensures { result ≡ logged_refusal a }
{
    match a {
        Ok(()) => 0,
        Err(r) => u32::from(reading_log::refusal_number(r)),
    }
}

// The number of a refusal of the module, 0 if the call went on.
pub fn checked_number(a: Result<(), Refusal>) -> u32
    ensures { result ≡ checked_number a }
{
    match a {
        Ok(()) => 0,
        Err(r) => u32::from(station::refusal_number(r)),
    }
}

// A record that is read goes out as its 16 octets; a refusal leaves what is there.
#[tactic(auto, unfolding(crate::specs::Given::record_told, crate::specs::Given::record_left))]
pub fn give_record(record: &mut [u8; 16], read: Result<Record, LogRefusal>) -> u32
    ensures { record_given result «record».new ≡ record_told «record».old read }
{
    match read {
        Err(x) => u32::from(reading_log::refusal_number(x)),
        Ok(r) => {
            reading_log::write_record(record, 0, r);
            0
        }
    }
}

// A number of records goes out, and 0; a refusal leaves what is there.
#[tactic(auto, unfolding(crate::specs::Given::number_told, crate::specs::Given::number_left))]
pub fn give_number(number: &mut usize, counted: Result<usize, LogRefusal>) -> u32
    ensures { number_given result number.new ≡ number_told number.old counted }
{
    match counted {
        Err(x) => u32::from(reading_log::refusal_number(x)),
        Ok(k) => {
            *number = k;
            0
        }
    }
}

#[tactic(auto, unfolding(crate::specs::Reader::plain_numbers))]
fn plain_numbers(p: Plain) -> [u64; 8]
    ensures { result ≡ plain_numbers p }
{
    [
        u64::from(p.place),
        u64::from(p.running),
        u64::from(p.run.start),
        u64::from(p.run.count),
        u64::from(p.run.register),
        0,
        0,
        0,
    ]
}

#[tactic(auto, unfolding(crate::specs::Reader::told_numbers))]
pub fn told_numbers(t: Told) -> [u64; 8]
    ensures { result ≡ told_numbers t }
{
    match t {
        Told::Refused(x) => {
            let n = u64::from(station::refusal_number(x));
            [n, 0, 0, 0, 0, 0, 0, 0]
        }
        Told::Quiet => [0, 0, 0, 0, 0, 0, 0, 0],
        Told::Counted(outcome, status, part, way) => {
            let n = u64::from(station::outcome_number(outcome));
            let w = u64::from(way);
            [0, 1, n, status, part.at as u64, part.len as u64, w, 0]
        }
    }
}

#[tactic(auto, unfolding(crate::specs::Bands::sizes_numbers, crate::specs::Records::at_places))]
pub fn sizes_numbers(t: SizeTable) -> [u64; 14]
    ensures { result ≡ sizes_numbers t }
{
    let f = t.frames;
    let o = t.octets;
    [
        f[0], f[1], f[2], f[3], f[4], f[5], f[6], o[0], o[1], o[2], o[3], o[4], o[5], o[6],
    ]
}

// The part itself if it lies inside n octets, else 0 and 0. No sum, so that none is too large.
#[tactic(auto, unfolding(crate::specs::Records::part_within))]
pub fn part_within(n: usize, at: usize, len: usize) -> [u64; 2]
    ensures { result ≡ part_within n at len }
{
    if at <= n && len <= n - at {
        [at as u64, len as u64]
    } else {
        [0, 0]
    }
}

// The entry that a table call took or freed, or a number of Starts, goes out, and 0; a refusal leaves what is there.
#[tactic(auto, unfolding(crate::specs::Given::entry_told, crate::specs::Given::entry_left))]
pub fn give_entry(at: &mut usize, placed: Result<usize, Refusal>) -> u32
    ensures { number_given result at.new ≡ entry_told at.old placed }
{
    match placed {
        Err(x) => u32::from(station::refusal_number(x)),
        Ok(k) => {
            *at = k;
            0
        }
    }
}

// A refused call leaves the state's numbers as they were, to the bit.
#[tactic(auto, unfolding(crate::specs::Given::state_left))]
pub fn leave(state: &mut [u64; 24], refusal: u64, after: State)
    ensures { state.new ≡ state_left refusal state.old after }
{
    if refusal == 0 {
        *state = state_numbers(after);
    }
}

// A reader goes out as its numbers and its octets.
#[tactic(auto, unfolding(crate::specs::Reader::reader_told))]
pub fn give_reader(reader: &mut [u64; 8], first: &mut [u8; 53], last: &mut [u8; 4], p: Plain)
    ensures { reader_given reader.new first.new last.new ≡ reader_told p }
{
    let front = p.run.first;
    let end = p.run.last;
    *first = front;
    *last = end;
    *reader = plain_numbers(p);
}

// A refused symbol leaves the reader as it was, to the bit.
#[tactic(auto, unfolding(crate::specs::Reader::reader_left))]
pub fn leave_reader(
    reader: &mut [u64; 8],
    first: &mut [u8; 53],
    last: &mut [u8; 4],
    refusal: u64,
    after: Plain,
)
    ensures { reader_given reader.new first.new last.new
        ≡ reader_left refusal (reader_given reader.old first.old last.old) after }
{
    if refusal == 0 {
        give_reader(reader, first, last, after);
    }
}

// Only a counted Start changes the state's numbers.
#[tactic(auto, unfolding(crate::specs::Reader::counted_left))]
pub fn leave_counted(state: &mut [u64; 24], counted: u64, after: State)
    ensures { state.new ≡ counted_left counted state.old after }
{
    if counted == 1 {
        *state = state_numbers(after);
    }
}
