// Reading (document 01, "Reading one Start", "Refusals and their order"), of a job, by the address table that two jobs share (document 02, item 10).
// Meaning: specs/.
// The two buffers are two parameters: that they differ in length is refusal 2, so that no invariant joins them, and a struct would name them twice in each
// clause. Settings, job and table likewise: each may be bad, which is refusals 1, 14 and 20.
#![tactic(auto)]

ghost use Rattle.std.specs.Prelude.{◌≡◌, ◌+◌, ◌≤◌, true, length};
ghost use Rattle.line.specs.Limits.{most_symbols};
ghost use Rattle.line.specs.Table.{first};
ghost use Rattle.table.specs.Entries.{entries_of};
ghost use Rattle.receive.specs.Reading.{read_refusals, reading, part_of};
ghost use Rattle.receive.specs.Steps.{part_at, sight_of, Inside, Seen, after_sight};
ghost use Rattle.receive.specs.Walk.{walked};

use fcs::Rows;
use fields::Layout;
use line::LEAD_SIZE;
use station::{Outcome, Part, Refusal, Settings, State};

// What a reading answers: the four cases that document 01 names side by side. `none` and `open` are no refusals, so a `Result` would hold an enum of three.
// The state stands beside the answer, since a refusal gives it too.
#[derive(Clone, Copy)]
pub enum Answer {
    Refused(Refusal),
    // `none`
    Nothing,
    // `open`
    Open,
    // outcome, status word, the client data as a part of the captured octets (0 and 0 for outcomes 1 to 10), and which address let the frame in (0 for
    // outcomes 1 to 7; document 02, item 7)
    Counted(Outcome, u64, Part, u8),
}

#[derive(Clone, Copy)]
pub struct Reading {
    pub answer: Answer,
    // the Start's place
    pub start: usize,
    // the next place
    pub next: usize,
    pub state: State,
}

// What a reading sees, whatever the state is.
#[derive(Clone, Copy)]
struct Sight {
    answer: Answer,
    start: usize,
    next: usize,
}

// How a walk over a whole capture ended.
#[derive(Clone, Copy, Debug, PartialEq, Eq)]
pub struct Ended {
    // how many Starts were counted
    pub starts: usize,
    // whether the walk ended `open`
    pub is_open: bool,
}

// What such a walk answers, and the state after it.
#[derive(Clone, Copy)]
pub struct Walking {
    pub answer: Result<Ended, Refusal>,
    pub state: State,
}

// ---- one reading

// The client data's part, of a frame that begins at place `at` and is laid out as `l` says: none but for outcome 11.
fn handed_part(checking: bool, o: Outcome, at: usize, f: &[u8], l: Layout) -> Part
    requires { at + l.place ≤ 131072 }
    ensures { result ≡ part_at checking o at f.now l }
{
    match o {
        Outcome::HandedOut => Part {
            at: at + l.place,
            len: frame::handed_length(checking, l.field, frame::frame_data(f, l.place)),
        },
        _ => Part { at: 0, len: 0 },
    }
}

// What is seen of a Start at place `start` whose run has this outcome and carries this number of the address that let the frame in.
fn look_run(s: Settings, start: usize, run: &[u8], o: Outcome, way: u8) -> Sight
    requires { (start ≤ most_symbols) × (length run.now ≤ most_symbols) }
    ensures { result ≡ sight_of s start run.now o way }
{
    let f = outcome::frame_of(run);
    let l = fields::layout_of(f);
    let part = handed_part(s.checking, o, start + LEAD_SIZE, f, l);
    let word = outcome::status(o, f, l, part.len);
    Sight {
        answer: Answer::Counted(o, word, part, way),
        start,
        next: start + 1 + run.len(),
    }
}

// The refusals of a reading, in the order of their table.
pub fn check_read(
    s: Settings,
    job: u8,
    table: &[u8; 128],
    octets: &[u8],
    marks: &[u8],
    place: usize,
) -> Result<(), Refusal>
    ensures { result ≡ first (read_refusals s job (entries_of table.now) octets.now marks.now place) }
{
    if station::bad_settings(s) {
        return Err(Refusal::BadSettings);
    }
    if table::bad_job(job) {
        return Err(Refusal::BadJob);
    }
    if station::bad_buffers(octets, marks) {
        return Err(Refusal::BadBuffers);
    }
    if station::bad_place(octets, place) {
        return Err(Refusal::BadPlace);
    }
    if table::bad_table(table) {
        return Err(Refusal::BadTable);
    }
    Ok(())
}

// What a reading sees: the first Start at a place or later, and its outcome. No state has a part in it.
fn look(s: Settings, job: u8, table: &[u8; 128], octets: &[u8], marks: &[u8], place: usize) -> Sight
    ensures { Seen s job (entries_of table.now) octets.now marks.now place result }
{
    if let Err(x) = check_read(s, job, table, octets, marks, place) {
        return Sight {
            answer: Answer::Refused(x),
            start: place,
            next: place,
        };
    }
    let Some(start) = line::find_start(octets, marks, place) else {
        return Sight {
            answer: Answer::Nothing,
            start: octets.len(),
            next: octets.len(),
        };
    };
    let from = start + 1;
    let Some(end) = line::find_control(octets, marks, from) else {
        return Sight {
            answer: Answer::Open,
            start,
            next: start,
        };
    };
    // a single reading has no time to make tables
    let o = outcome::judge(None, s, job, table, &octets[from..end], octets[end]).outcome;
    // here and not in `look_run`: settings that are lent on from one place only are not taken apart, which is a sixth of a short reading
    let way = match o {
        Outcome::PauseTaken | Outcome::PfcTaken | Outcome::ControlDropped | Outcome::HandedOut =>
            control::frame_way(s, job, table, outcome::frame_of(&octets[from..end])),
        _ => 0,
    };
    look_run(s, start, &octets[from..end], o, way)
}

// The state after a reading that saw this. Counters and timers are put together once, and not on each way: that is a sixth of a short reading.
fn state_after(seen: Sight, octets: &[u8], state: State) -> State
    requires { Inside octets.now seen }
    ensures { result ≡ after_sight octets.now seen state }
{
    let mut counters = state.counters;
    let mut timers = state.timers;
    if let Answer::Counted(o, ..) = seen.answer {
        station::count(o, &mut counters);
        if flow::sets_timers(o) {
            let from = seen.start + 1;
            let f = outcome::frame_of(&octets[from..seen.next]);
            // a call's result is not laid in a local that is lent
            let set = flow::timers_after(o, f, timers);
            timers = set;
        }
    }
    State {
        counters,
        timers,
        deficit: state.deficit,
    }
}

// A reading: the first Start at a place or later, its outcome, and the state after it.
pub fn read(
    s: Settings,
    job: u8,
    table: &[u8; 128],
    state: State,
    octets: &[u8],
    marks: &[u8],
    place: usize,
) -> Reading
    ensures { result ≡ reading s job (entries_of table.now) state octets.now marks.now place }
{
    let seen = look(s, job, table, octets, marks, place);
    Reading {
        answer: seen.answer,
        start: seen.start,
        next: seen.next,
        state: state_after(seen, octets, state),
    }
}

// The client data: a part of the captured octets themselves; none where the part does not lie inside them.
pub fn client_data(octets: &[u8], part: Part) -> &[u8]
    ensures { result.now ≡ part_of octets.now part }
{
    let at = part.at;
    let n = part.len;
    if octets.len() < at {
        return &octets[..0];
    }
    if octets.len() - at < n {
        return &octets[..0];
    }
    let end = at + n;
    &octets[at..end]
}

// ---- the walk

// The walk over a capture that is not refused, the FCS by tables if they are lent. Counters and timers stay where they are; most Starts set no timer.
// A loop of its own, as in `logging::keep_on` and `sizes::add_walk`: what all three would share would be called for each Start, and not stand in the loop.
fn walk_on(
    tables: Option<Rows>,
    s: Settings,
    job: u8,
    table: &[u8; 128],
    state: State,
    octets: &[u8],
    marks: &[u8],
) -> Walking
    requires { first (read_refusals s job (entries_of table.now) octets.now marks.now 0) ≡ Ok tt }
    ensures { result ≡ walked s job (entries_of table.now) state octets.now marks.now }
{
    let mut counters = state.counters;
    let mut timers = state.timers;
    // of the settings, what the quick way looks at: it is lent no more, which would be copied for each frame
    let want = outcome::opening(s.own);
    let limit = s.limit;
    let mut n: usize = 0;
    let mut at: usize = 0;
    loop {
        let Some(start) = line::find_start(octets, marks, at) else {
            return Walking {
                answer: Ok(Ended {
                    starts: n,
                    is_open: false,
                }),
                state: State {
                    counters,
                    timers,
                    deficit: state.deficit,
                },
            };
        };
        let from = start + 1;
        let Some(end) = line::find_control(octets, marks, from) else {
            return Walking {
                answer: Ok(Ended {
                    starts: n,
                    is_open: true,
                }),
                state: State {
                    counters,
                    timers,
                    deficit: state.deficit,
                },
            };
        };
        // the frame most seen sets no timer; all else goes by the rules
        if outcome::is_plain(&want, limit, &octets[from..end], octets[end]) {
            let judged = outcome::judge_plain(tables, &octets[from..end]);
            let o = judged.outcome;
            station::count(o, &mut counters);
        } else {
            let judged = outcome::judge(tables, s, job, table, &octets[from..end], octets[end]);
            let o = judged.outcome;
            station::count(o, &mut counters);
            if flow::sets_timers(o) {
                let f = outcome::frame_of(&octets[from..end]);
                let set = flow::timers_after(o, f, timers);
                timers = set;
            }
        }
        n += 1;
        at = end;
    }
}

// The place after a symbol.
fn behind(place: usize) -> usize {
    place.wrapping_add(1)
}

// Where the Start after the one at `start` stands, or the run that is left.
fn next_start(octets: &[u8], marks: &[u8], start: usize) -> Option<usize> {
    let end = line::find_control(octets, marks, behind(start))?;
    line::find_start(octets, marks, end)
}

// Whether three Starts stand there.
fn three_starts(octets: &[u8], marks: &[u8]) -> bool {
    let Some(first) = line::find_start(octets, marks, 0) else {
        return false;
    };
    let Some(second) = next_start(octets, marks, first) else {
        return false;
    };
    next_start(octets, marks, second).is_some()
}

// Whether the tables of the FCS pay from a place on: they do for some fifty short frames. From 24,576 symbols on three Starts in 1,536 tell of enough of
// them, from 4,096 on three in 256; the check of a long frame looks little up. Only time hangs on it; it is public for this repository's crates only.
pub fn tables_pay(octets: &[u8], marks: &[u8], place: usize) -> bool
    ensures { result ≡ true → place + 4096 ≤ length octets.now }
{
    if octets.len() < place {
        return false;
    }
    if marks.len() < octets.len() {
        return false;
    }
    let left = octets.len() - place;
    if left < 4096 {
        return false;
    }
    if left < 24576 {
        let dense = place + 256;
        return three_starts(&octets[place..dense], &marks[place..dense]);
    }
    let near = place + 1536;
    three_starts(&octets[place..near], &marks[place..near])
}

// The whole walk in one call: every Start in its order. In a long capture of short frames the tables of the FCS are made once and lent.
pub fn walk(
    s: Settings,
    job: u8,
    table: &[u8; 128],
    state: State,
    octets: &[u8],
    marks: &[u8],
) -> Walking
    ensures { result ≡ walked s job (entries_of table.now) state octets.now marks.now }
{
    if let Err(x) = check_read(s, job, table, octets, marks, 0) {
        return Walking {
            answer: Err(x),
            state,
        };
    }
    if !tables_pay(octets, marks, 0) {
        return walk_on(None, s, job, table, state, octets, marks);
    }
    let mut t = [0u32; 4096];
    fcs::make_tables(&mut t);
    walk_on(Some(Rows { t: &t }), s, job, table, state, octets, marks)
}
