// Readings kept in a log (document 02, items 4 and 11), of a job and by the address table (item 10). Meaning: specs/.
#![tactic(auto)]

ghost use Rattle.std.specs.Prelude.{◌≡◌, true, false, ◌≤◌, length};
ghost use Rattle.line.specs.Limits.{most_symbols};
ghost use Rattle.line.specs.Table.{first};
ghost use Rattle.station.specs.declared.Outcome.TheVariants.{HandedOut};
ghost use Rattle.station.specs.Numbers.{by_outcome};
ghost use Rattle.fields.specs.Places.{layout_of};
ghost use Rattle.table.specs.Entries.{entries_of, own_entries};
ghost use Rattle.outcome.specs.Outcomes.{frame_of};
ghost use Rattle.reading_log.specs.Log.{logging, appending};
ghost use Rattle.logging.specs.declared.KeepRefusal.TheVariants.{ByReading};
ghost use Rattle.logging.specs.Records.{record_at, record_of_reading};
ghost use Rattle.logging.specs.Steps.{record_of_frame};
ghost use Rattle.logging.specs.Walks.{keeping, keep_refusals, walk_logged};

use fcs::Rows;
use fields::Layout;
use line::RECORD_SIZE;
use reading_log::{LogRefusal, Record, append, extent_of, room, write_record};
use receive::{Answer, Reading};
use station::{Outcome, Refusal, Settings, State};

// Why a walk that keeps its readings is refused: by 1, 14, 2, 3 or 20, as a reading is, or by 11.
#[derive(Clone, Copy, Debug, PartialEq, Eq)]
pub enum KeepRefusal {
    ByReading(Refusal),
    ByLog(LogRefusal),
}

impl From<Refusal> for KeepRefusal {
    ghost from_gives = { λ x y. y ≡ ByReading x };

    fn from(x: Refusal) -> KeepRefusal {
        KeepRefusal::ByReading(x)
    }
}

// How such a walk ended: four cases side by side, as in `receive::Answer`.
#[derive(Clone, Copy)]
pub enum LogEnd {
    Refused(KeepRefusal),
    // `none`
    Nothing,
    // `open`
    Open,
    // a further Start would be counted, and every record is used
    Full,
}

#[derive(Clone, Copy)]
pub struct LogWalk {
    pub end: LogEnd,
    pub state: State,
    // the next place: after `Full` the walk goes on from here with another log
    pub next: usize,
    // how many records were appended
    pub kept: usize,
}

// ---- one reading

// The record of a reading with this outcome's number, the number of the address that let the frame in, so many octets handed out and its status word.
fn record_at(start: usize, outcome: u8, way: u8, handed: usize, status: u64) -> Record
    ensures { result ≡ record_at start outcome way handed status }
{
    Record {
        place: (start % 4294967296) as u32,
        outcome,
        way,
        handed: (handed % 65536) as u16,
        status,
    }
}

// The record of a reading: outcome 0 for `none`, `open` and a refused one.
fn record_of(r: Reading) -> Record
    ensures { result ≡ record_of_reading r }
{
    match r.answer {
        Answer::Refused(_) | Answer::Nothing | Answer::Open => record_at(r.start, 0, 0, 0, 0),
        Answer::Counted(o, word, part, way) => record_at(
            r.start,
            station::outcome_number(o),
            way,
            part.len,
            word,
        ),
    }
}

// Appends the record of a reading; one that counted no Start is not appended.
pub fn append_reading(log: &mut [u8], r: Reading) -> Result<(), LogRefusal>
    ensures { logging result log.new ≡ appending log.old (record_of_reading r) }
{
    append(log, record_of(r))
}

// ---- one Start of a walk

// Whether a reading with this outcome says anything of its frame: outcomes 8 to 11.
#[tactic(auto, using(crate::proofs::Loops::tells_none))]
fn tells(o: Outcome) -> bool
    ensures { result ≡ by_outcome o false true true true true }
{
    matches!(
        o,
        Outcome::PauseTaken | Outcome::PfcTaken | Outcome::ControlDropped | Outcome::HandedOut
    )
}

// The record of a Start with outcome 11, of its frame, laid out as `l` says.
fn handed_record(
    s: Settings,
    job: u8,
    table: &[u8; 128],
    start: usize,
    f: &[u8],
    l: Layout,
) -> Record
    requires { (length f.now ≤ most_symbols) × (l ≡ layout_of f.now) }
    ensures { result ≡ record_of_frame s (own_entries job table.now) start f.now HandedOut }
{
    let handed = frame::handed_length(s.checking, l.field, frame::frame_data(f, l.place));
    let word = outcome::status(Outcome::HandedOut, f, l, handed);
    record_at(
        start,
        11,
        control::frame_way(s, job, table, f),
        handed,
        word,
    )
}

// The same, of the frame alone. Most frames have no tag: with none named, much of the record is made of constants.
fn handed_out(s: Settings, job: u8, table: &[u8; 128], start: usize, f: &[u8]) -> Record
    requires { length f.now ≤ most_symbols }
    ensures { result ≡ record_of_frame s (own_entries job table.now) start f.now HandedOut }
{
    let tags = fields::tag_count(f);
    if tags == 0 {
        return handed_record(s, job, table, start, f, fields::laid_out(f, 0));
    }
    handed_record(s, job, table, start, f, fields::laid_out(f, tags))
}

// The record of a Start whose frame is `f`: but for outcome 11, nothing is handed out.
fn record_of_frame(
    s: Settings,
    job: u8,
    table: &[u8; 128],
    start: usize,
    f: &[u8],
    o: Outcome,
) -> Record
    requires { length f.now ≤ most_symbols }
    ensures { result ≡ record_of_frame s (own_entries job table.now) start f.now o }
{
    match o {
        Outcome::HandedOut => handed_out(s, job, table, start, f),
        _ => {
            let word = outcome::status(o, f, fields::layout_of(f), 0);
            let way = control::way_carried(s, job, table, o, f);
            record_at(start, station::outcome_number(o), way, 0, word)
        }
    }
}

// The record of a Start whose run has this outcome. Outcomes 1 to 7 say nothing of their frame, so it is not looked at.
fn record_of_run(
    s: Settings,
    job: u8,
    table: &[u8; 128],
    start: usize,
    run: &[u8],
    o: Outcome,
) -> Record
    requires { length run.now ≤ most_symbols }
    ensures { result ≡ record_of_frame s (own_entries job table.now) start (frame_of run.now) o }
{
    if !tells(o) {
        return record_at(start, station::outcome_number(o), 0, 0, 0);
    }
    record_of_frame(s, job, table, start, outcome::frame_of(run), o)
}

// ---- a walk that keeps its readings

// The refusals of a walk that keeps its readings: those of a reading, then the log's.
fn check_keep(
    s: Settings,
    job: u8,
    table: &[u8; 128],
    octets: &[u8],
    marks: &[u8],
    place: usize,
    log: &[u8],
) -> Result<(), KeepRefusal>
    ensures { result ≡ first (keep_refusals s job (entries_of table.now) octets.now marks.now place log.now) }
{
    receive::check_read(s, job, table, octets, marks, place)?;
    if log.len() % RECORD_SIZE != 0 {
        return Err(KeepRefusal::ByLog(LogRefusal::BadLog));
    }
    Ok(())
}

// The walk where nothing is refused, the FCS by tables if they are lent. Counters and timers stay where they are, as in `receive::walk`. The last used
// record is looked for once: what is appended is the last one then. So there is a compaction when the last slot is reached, and another that finds every
// record used. A full log is seen before the outcome is: that costs no FCS. A loop of its own: `receive::walk_on` says why.
fn keep_on(
    tables: Option<Rows>,
    s: Settings,
    job: u8,
    table: &[u8; 128],
    state: State,
    octets: &[u8],
    marks: &[u8],
    place: usize,
    log: &mut [u8],
) -> LogWalk
    requires { first (keep_refusals s job (entries_of table.now) octets.now marks.now place log.old) ≡ Ok tt }
    ensures { keeping result log.new
        ≡ walk_logged s job (entries_of table.now) state octets.now marks.now place log.old }
{
    let records = log.len() / RECORD_SIZE;
    let mut counters = state.counters;
    let mut timers = state.timers;
    // of the settings, what the quick way looks at: it is lent no more, which would be copied for each frame
    let want = outcome::opening(s.own);
    let limit = s.limit;
    let mut n: usize = 0;
    let mut at = place;
    let mut k = extent_of(log);
    loop {
        let Some(start) = line::find_start(octets, marks, at) else {
            return LogWalk {
                end: LogEnd::Nothing,
                state: State {
                    counters,
                    timers,
                    deficit: state.deficit,
                },
                next: octets.len(),
                kept: n,
            };
        };
        let from = start + 1;
        let Some(end) = line::find_control(octets, marks, from) else {
            return LogWalk {
                end: LogEnd::Open,
                state: State {
                    counters,
                    timers,
                    deficit: state.deficit,
                },
                next: start,
                kept: n,
            };
        };
        k = room(log, k);
        if k == records {
            return LogWalk {
                end: LogEnd::Full,
                state: State {
                    counters,
                    timers,
                    deficit: state.deficit,
                },
                next: at,
                kept: n,
            };
        }
        // the frame most seen; all else goes by the rules
        let judged = if outcome::is_plain(&want, limit, &octets[from..end], octets[end]) {
            outcome::judge_plain(tables, &octets[from..end])
        } else {
            outcome::judge(tables, s, job, table, &octets[from..end], octets[end])
        };
        let o = judged.outcome;
        station::count(o, &mut counters);
        if flow::sets_timers(o) {
            let f = outcome::frame_of(&octets[from..end]);
            let set = flow::timers_after(o, f, timers);
            timers = set;
        }
        write_record(
            log,
            k,
            record_of_run(s, job, table, start, &octets[from..end], o),
        );
        k += 1;
        n += 1;
        at = end;
    }
}

// Whether tables of the FCS pay: they pay for a walk from the place on, and the log has records for 49 frames of 64 octets, which take 4,096 symbols.
fn pays(octets: &[u8], marks: &[u8], place: usize, log: usize) -> bool {
    if log < 784 {
        return false;
    }
    receive::tables_pay(octets, marks, place)
}

// A walk from a place on that appends the record of each Start it counts, until `none`, `open` or a full log. In a long one the tables of the FCS are
// made once and lent.
pub fn walk_log(
    s: Settings,
    job: u8,
    table: &[u8; 128],
    state: State,
    octets: &[u8],
    marks: &[u8],
    place: usize,
    log: &mut [u8],
) -> LogWalk
    ensures { keeping result log.new
        ≡ walk_logged s job (entries_of table.now) state octets.now marks.now place log.old }
{
    if let Err(x) = check_keep(s, job, table, octets, marks, place, log) {
        return LogWalk {
            end: LogEnd::Refused(x),
            state,
            next: place,
            kept: 0,
        };
    }
    if !pays(octets, marks, place, log.len()) {
        return keep_on(None, s, job, table, state, octets, marks, place, log);
    }
    let mut t = [0u32; 4096];
    fcs::make_tables(&mut t);
    keep_on(
        Some(Rows { t: &t }),
        s,
        job,
        table,
        state,
        octets,
        marks,
        place,
        log,
    )
}
