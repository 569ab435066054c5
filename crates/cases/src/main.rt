// Calls of the C face that are run and compared: each is taken from a tape on standard input, and what it gives is printed. How a tape is laid out,
// and who makes it: tools/oracle/tape.py. What lies past the tape's end counts as 0, so that any tape has an answer.
#![tactic(auto)]

ghost use Rattle.std.specs.Prelude.{◌≡◌, ◌≤◌, length};

use std::fmt::Display;
use std::{array, io};

// ---- the tape

// The tape from a place on: nothing past its end.
fn behind(t: &[u8], at: usize) -> &[u8] {
    t.get(at..).unwrap_or_default()
}

// So many octets from a place on; none where not all of them are there.
fn part(t: &[u8], at: usize, n: usize) -> &[u8] {
    behind(t, at).get(..n).unwrap_or_default()
}

// The first N octets; 0 for those that are not there.
fn padded<const N: usize>(s: &[u8]) -> [u8; N] {
    array::from_fn(|k| s.get(k).copied().unwrap_or(0))
}

// The octets of runs, one run behind the other: how many, the first, and what is added from one to the next.
#[derive(Drop)]
struct Runs<'a> {
    tape: &'a [u8],
    // the place behind the present run, what is left of that run, and its present octet
    at: usize,
    left: u8,
    octet: u8,
    step: u8,
}

impl<'a> Iterator for Runs<'a> {
    type Item = u8;

    fn next(&mut self) -> Option<u8> {
        if 1 < self.left {
            self.left -= 1;
            self.octet = self.octet.wrapping_add(self.step);
        } else {
            let [left, octet, step]: [u8; 3] = padded(behind(self.tape, self.at));
            self.left = left;
            self.octet = octet;
            self.step = step;
            self.at = self.at.wrapping_add(3);
        }
        Some(self.octet)
    }
}

// Fills a buffer from the runs at a place.
fn fill(t: &[u8], at: usize, out: &mut [u8]) {
    let runs = Runs {
        tape: t,
        at,
        left: 0,
        octet: 0,
        step: 0,
    };
    for (x, octet) in out.iter_mut().zip(runs) {
        *x = octet;
    }
}

fn octets<const N: usize>(t: &[u8], at: usize) -> [u8; N] {
    let mut out = [0; N];
    fill(t, at, &mut out);
    out
}

// The first N numbers: eight octets each, high octet first.
fn numbers<const N: usize>(s: &[u8]) -> [u64; N] {
    let mut out = [0; N];
    for (n, octets) in out.iter_mut().zip(s.chunks(8)) {
        *n = u64::from_be_bytes(padded(octets));
    }
    out
}

// The low 16 bits of each.
fn shorts<const N: usize>(s: &[u8]) -> [u16; N]
    requires { N ≤ 258 }
{
    numbers(s).map(|n| (n % 65536) as u16)
}

// What lies elsewhere on the tape and has a length of its own.
#[derive(Clone, Copy)]
struct Named {
    at: usize,
    length: usize,
}

impl From<u64> for Named {
    // The place times 2^32 plus the length.
    fn from(n: u64) -> Named {
        Named {
            at: (n / 4294967296) as usize,
            length: (n % 4294967296) as usize,
        }
    }
}

impl Named {
    fn on<'a>(self, t: &'a [u8]) -> &'a [u8] {
        part(t, self.at, self.length)
    }
}

// ---- a call

#[derive(Clone, Copy)]
enum Sending {
    Client,
    Pause,
    Pfc,
    Idle,
}

#[derive(Clone, Copy)]
enum LogCall {
    Append,
    AppendReading,
    Look,
    Delete,
    DeleteOutcome,
    Compact,
}

#[derive(Clone, Copy)]
enum TotalsCall {
    Fill,
    Send(Sending),
    StartsBefore,
}

#[derive(Clone, Copy)]
enum TableCall {
    Empty,
    Add,
    Remove,
}

#[derive(Clone, Copy)]
enum SizesCall {
    AddCapture,
    AddTable,
    Fresh,
}

#[derive(Clone, Copy)]
enum Kind {
    Readings,
    Send(Sending),
    Log(LogCall),
    Keep,
    Explain,
    Totals(TotalsCall),
    Table(TableCall),
    Screen,
    Plain,
    Sizes(SizesCall),
}

impl From<u64> for Kind {
    // By the numbers of tools/oracle/tape.py; any above them is that of the last.
    fn from(n: u64) -> Kind {
        match n {
            0 => Kind::Readings,
            1 => Kind::Send(Sending::Client),
            2 => Kind::Send(Sending::Pause),
            3 => Kind::Send(Sending::Pfc),
            4 => Kind::Send(Sending::Idle),
            5 => Kind::Log(LogCall::Append),
            6 => Kind::Log(LogCall::AppendReading),
            7 => Kind::Log(LogCall::Look),
            8 => Kind::Keep,
            9 => Kind::Explain,
            10 => Kind::Totals(TotalsCall::Fill),
            11 => Kind::Totals(TotalsCall::Send(Sending::Client)),
            12 => Kind::Totals(TotalsCall::Send(Sending::Pause)),
            13 => Kind::Totals(TotalsCall::Send(Sending::Pfc)),
            14 => Kind::Totals(TotalsCall::Send(Sending::Idle)),
            15 => Kind::Totals(TotalsCall::StartsBefore),
            16 => Kind::Table(TableCall::Empty),
            17 => Kind::Table(TableCall::Add),
            18 => Kind::Table(TableCall::Remove),
            19 => Kind::Screen,
            20 => Kind::Log(LogCall::Delete),
            21 => Kind::Log(LogCall::DeleteOutcome),
            22 => Kind::Log(LogCall::Compact),
            23 => Kind::Plain,
            24 => Kind::Sizes(SizesCall::AddCapture),
            25 => Kind::Sizes(SizesCall::AddTable),
            _ => Kind::Sizes(SizesCall::Fresh),
        }
    }
}

#[derive(Drop)]
struct Call<'a> {
    tape: &'a [u8],
    kind: Kind,
    name: &'a [u8],
    settings: [u8; 24],
    state: [u64; 24],
    // where the client frame lies, or what stands in its place
    client: usize,
    quanta: [u16; 8],
    place: usize,
    n: u64,
    octets: Named,
    marks: Named,
    data: &'a [u8],
    log: Named,
    // stands in place of the log
    port: u8,
    totals: Named,
    job: u8,
    table: [u8; 128],
}

// A call by its fifteen numbers.
fn call_of<'a>(t: &'a [u8], given: [u64; 15]) -> Call<'a> {
    let [
        kind,
        name,
        settings,
        state,
        client,
        quanta,
        place,
        n,
        octets_named,
        marks,
        data,
        log,
        totals,
        job,
        table,
    ] = given;
    Call {
        tape: t,
        kind: Kind::from(kind),
        name: Named::from(name).on(t),
        settings: octets(t, settings as usize),
        state: numbers(behind(t, state as usize)),
        client: client as usize,
        quanta: shorts(behind(t, quanta as usize)),
        place: place as usize,
        n,
        octets: Named::from(octets_named),
        marks: Named::from(marks),
        data: Named::from(data).on(t),
        log: Named::from(log),
        port: (log % 256) as u8,
        totals: Named::from(totals),
        job: (job % 256) as u8,
        table: octets(t, table as usize),
    }
}

// The two buffers of a call, as it reads them.
#[derive(Clone, Copy)]
struct Capture<'a> {
    octets: &'a [u8],
    marks: &'a [u8],
}

// The same, as it writes them.
#[derive(Drop)]
struct Buffers<'a> {
    octets: &'a mut [u8],
    marks: &'a mut [u8],
}

impl<'a> Buffers<'a> {
    fn capture(&self) -> Capture<'_> {
        Capture {
            octets: self.octets,
            marks: self.marks,
        }
    }
}

// ---- what is printed

// The numbers that differ, of which the first is called `first`.
fn changed<T: Copy + PartialEq + Display>(
    rt: &impl Print,
    first: usize,
    before: &[T],
    after: &[T],
) -> io::Result<()> {
    for (k, (x, y)) in before.iter().zip(after).enumerate() {
        if *x != *y {
            let name = first.wrapping_add(k);
            print!(rt; " {name}={y}")?;
        }
    }
    Ok(())
}

fn changes(rt: &impl Print, before: &[u64; 24], after: &[u64; 24]) -> io::Result<()> {
    rt.write_all(b" counters")?;
    changed(rt, 1, &before[..11], &after[..11])?;
    rt.write_all(b" timers")?;
    changed(rt, 0, &before[11..19], &after[11..19])?;
    // the deficit count and what is kept for later, by their places among the numbers
    changed(rt, 19, &before[19..], &after[19..])?;
    rt.write_all(b"\n")
}

fn refusal(rt: &impl Print, n: u32) -> io::Result<()> {
    if n == 0 {
        rt.write_all(b" fine")
    } else {
        print!(rt; " refused {n}")
    }
}

// ---- readings

// The client data of a reading, which its answer names.
fn data_told(rt: &impl Print, o: &[u8], at: u64, length: u64) -> io::Result<()> {
    let mut p = [0; 2];
    fenhamper::fenhamper_client_data(o.len(), at as usize, length as usize, &mut p);
    let d = part(o, p[0] as usize, p[1] as usize);
    let sum = fenhamper::fenhamper_fcs(d);
    print!(rt; " data {} sum {sum:08x}", d.len())
}

// Where the next reading begins, if this one has an outcome.
fn answer(rt: &impl Print, a: [u64; 12], o: &[u8]) -> io::Result<Option<usize>> {
    let [
        refused,
        kind,
        outcome,
        start,
        next,
        status,
        at,
        length,
        way,
        ..
    ] = a;
    match (refused, kind) {
        (0, 0) => {
            print!(rt; " outcome {outcome} status {status:010x} part {at} of {length} way {way}")?;
            data_told(rt, o, at, length)?;
        }
        (0, 1) => rt.write_all(b" none")?,
        (0, _) => rt.write_all(b" open")?,
        _ => print!(rt; " refused {refused}")?,
    }
    print!(rt; " start {start} next {next}")?;
    Ok((refused == 0 && kind == 0).then_some(next as usize))
}

fn read(
    rt: &impl Print,
    c: &Call,
    s: Capture,
    state: &mut [u64; 24],
    at: usize,
) -> io::Result<Option<usize>> {
    let before = *state;
    let mut a = [0; 12];
    fenhamper::fenhamper_read(
        &c.settings,
        c.job,
        &c.table,
        state,
        s.octets,
        s.marks,
        at,
        &mut a,
    );
    let next = answer(rt, a, s.octets)?;
    changes(rt, &before, state)?;
    Ok(next)
}

// The values of the management screen that differ.
fn screens(rt: &impl Print, before: &[u64; 24], after: &[u64; 24]) -> io::Result<()> {
    let mut first = [0; 11];
    let mut last = [0; 11];
    fenhamper::fenhamper_screen(before, &mut first);
    fenhamper::fenhamper_screen(after, &mut last);
    rt.write_all(b" screen")?;
    changed(rt, 1, &first, &last)
}

fn walked(rt: &impl Print, [refused, starts, open, _]: [u64; 4]) -> io::Result<()> {
    if refused == 0 {
        print!(rt; " walk {starts} open {open}")
    } else {
        print!(rt; " walk refused {refused}")
    }
}

fn walk(rt: &impl Print, c: &Call, s: Capture) -> io::Result<()> {
    let mut state = c.state;
    let mut a = [0; 4];
    fenhamper::fenhamper_walk(
        &c.settings,
        c.job,
        &c.table,
        &mut state,
        s.octets,
        s.marks,
        &mut a,
    );
    walked(rt, a)?;
    screens(rt, &c.state, &state)?;
    changes(rt, &c.state, &state)
}

// As many readings as the call's number says, and if that is more than one, a walk; each has the name of its own.
fn readings(rt: &impl Print, c: &Call, s: Capture) -> io::Result<()> {
    let mut state = c.state;
    let mut at = c.place;
    for _ in 0..c.n {
        rt.write_all(c.name)?;
        match read(rt, c, s, &mut state, at)? {
            Some(next) => at = next,
            None => break,
        }
    }
    if 1 < c.n {
        rt.write_all(c.name)?;
        walk(rt, c, s)?;
    }
    Ok(())
}

// Why a Start has its outcome: all eight numbers, each of which is written.
fn explain(rt: &impl Print, c: &Call, s: Capture) -> io::Result<()> {
    let mut a = [1; 8];
    fenhamper::fenhamper_explain(
        &c.settings,
        c.job,
        &c.table,
        s.octets,
        s.marks,
        c.place,
        &mut a,
    );
    let [refused, kind, outcome, start, next, reason, x, y] = a;
    println!(rt;
        " refused {refused} kind {kind} outcome {outcome} start {start} next {next} reason {reason} of {x} and {y}"
    )
}

// ---- the plain reader

// What is told at a symbol with this number, unless it is nothing.
fn symbol_told(rt: &impl Print, k: usize, a: [u64; 8]) -> io::Result<()> {
    let [refused, counted, outcome, status, at, length, way, _] = a;
    if refused != 0 {
        print!(rt; " symbol {k} refused {refused}")?;
    }
    if counted != 0 {
        print!(rt;
            " symbol {k} outcome {outcome} status {status:010x} part {at} of {length} way {way}"
        )?;
    }
    Ok(())
}

// Symbol by symbol, by a reader that has taken as many as the call's place says.
fn plainly(rt: &impl Print, c: &Call, s: Capture) -> io::Result<()> {
    let mut state = c.state;
    let mut reader = [0; 8];
    let mut first = [0; 53];
    let mut last = [0; 4];
    fenhamper::fenhamper_plain_fresh(&mut reader, &mut first, &mut last);
    reader[0] = c.place as u64;
    for (k, octet) in s.octets.iter().enumerate() {
        let mut a = [1; 8];
        fenhamper::fenhamper_plain_symbol(
            &c.settings,
            c.job,
            &c.table,
            &mut state,
            &mut reader,
            &mut first,
            &mut last,
            *octet,
            s.marks.get(k).copied().unwrap_or(0),
            &mut a,
        );
        symbol_told(rt, k, a)?;
    }
    let [taken, open, ..] = reader;
    print!(rt; " taken {taken} open {open}")?;
    changes(rt, &c.state, &state)
}

// ---- the size table

// The size table stands in place of the totals, and behind its fourteen numbers those of another table. Told are its counts that are not as before:
// frames of the bands 0 to 6, and then octets.
fn sized(rt: &impl Print, c: &Call, call: SizesCall, s: Capture) -> io::Result<()> {
    let before: [u64; 14] = numbers(behind(c.tape, c.totals.at));
    let mut sizes = before;
    match call {
        SizesCall::AddCapture => refusal(
            rt,
            fenhamper::fenhamper_sizes_add_capture(
                &c.settings,
                c.job,
                &c.table,
                s.octets,
                s.marks,
                &mut sizes,
            ),
        )?,
        SizesCall::AddTable => {
            let more = numbers(behind(c.tape, c.totals.at.wrapping_add(112)));
            fenhamper::fenhamper_sizes_add_table(&mut sizes, &more);
        }
        SizesCall::Fresh => fenhamper::fenhamper_sizes_fresh(&mut sizes),
    }
    rt.write_all(b" sizes")?;
    changed(rt, 0, &before, &sizes)?;
    rt.write_all(b"\n")
}

// ---- sendings

#[derive(Drop)]
struct Sent {
    state: [u64; 24],
    answer: [u64; 2],
}

fn send(c: &Call, what: Sending, b: &mut Buffers) -> Sent {
    let mut state = c.state;
    let mut answer = [0; 2];
    match what {
        Sending::Client => fenhamper::fenhamper_send_client(
            &c.settings,
            &mut state,
            c.port,
            b.octets,
            b.marks,
            c.place,
            &octets(c.tape, c.client),
            c.data,
            &mut answer,
        ),
        Sending::Pause => fenhamper::fenhamper_send_pause(
            &c.settings,
            &mut state,
            c.port,
            b.octets,
            b.marks,
            c.place,
            (c.n % 65536) as u16,
            &mut answer,
        ),
        Sending::Pfc => fenhamper::fenhamper_send_pfc(
            &c.settings,
            &mut state,
            c.port,
            b.octets,
            b.marks,
            c.place,
            (c.n % 256) as u8,
            &c.quanta,
            &mut answer,
        ),
        Sending::Idle => fenhamper::fenhamper_fill_idle(
            &mut state,
            b.octets,
            b.marks,
            c.place,
            c.n as usize,
            &mut answer,
        ),
    }
    Sent { state, answer }
}

fn went(rt: &impl Print, a: [u64; 2], s: Capture) -> io::Result<()> {
    let [refused, place] = a;
    if refused == 0 {
        print!(rt; " wrote place {place}")?;
    } else {
        print!(rt; " refused {refused} place {place}")?;
    }
    let x = fenhamper::fenhamper_fcs(s.octets);
    let y = fenhamper::fenhamper_fcs(s.marks);
    print!(rt;
        " octets {} {x:08x} marks {} {y:08x}",
        s.octets.len(),
        s.marks.len()
    )
}

fn written(rt: &impl Print, c: &Call, what: Sending, b: &mut Buffers) -> io::Result<()> {
    let r = send(c, what, b);
    went(rt, r.answer, b.capture())?;
    changes(rt, &c.state, &r.state)
}

// ---- the log

// The 16 octets, four at a time.
fn record_told(rt: &impl Print, record: &[u8; 16]) -> io::Result<()> {
    rt.write_all(b" record")?;
    for four in record.chunks_exact(4) {
        rt.write_all(b" ")?;
        for x in four {
            print!(rt; "{x:02x}")?;
        }
    }
    Ok(())
}

fn log_told(rt: &impl Print, log: &[u8]) -> io::Result<()> {
    let sum = fenhamper::fenhamper_fcs(log);
    print!(rt; " log {} {sum:08x}", log.len())
}

// Record k; the next record of a reader that stands at k; how many are used, where k was told before.
fn look(rt: &impl Print, log: &[u8], before: [u8; 16], k: usize) -> io::Result<()> {
    let mut record = before;
    refusal(rt, fenhamper::fenhamper_log_record(log, k, &mut record))?;
    record_told(rt, &record)?;
    let mut at = k;
    let mut next = before;
    refusal(rt, fenhamper::fenhamper_log_next(log, &mut at, &mut next))?;
    record_told(rt, &next)?;
    let mut used = k;
    refusal(rt, fenhamper::fenhamper_log_used(log, &mut used))?;
    print!(rt; " at {at} used {used}")
}

// Deletes the records of the outcome that the call's number says; how many these were, where the place was told before.
fn delete_outcome(rt: &impl Print, c: &Call, log: &mut [u8]) -> io::Result<()> {
    let mut deleted = c.place;
    refusal(
        rt,
        fenhamper::fenhamper_log_delete_outcome(log, (c.n % 256) as u8, &mut deleted),
    )?;
    print!(rt; " deleted {deleted}")
}

// The numbers of a reading are the first of those on the tape in place of a state.
fn append_reading(c: &Call, log: &mut [u8]) -> u32 {
    fenhamper::fenhamper_log_append_reading(log, &array::from_fn(|k| c.state[k]))
}

// Every call on a log but the walk: the log stands in place of the octets, a record in place of the client frame.
fn logged(rt: &impl Print, c: &Call, call: LogCall, log: &mut [u8]) -> io::Result<()> {
    let record = octets(c.tape, c.client);
    match call {
        LogCall::Append => refusal(rt, fenhamper::fenhamper_log_append(log, &record))?,
        LogCall::AppendReading => refusal(rt, append_reading(c, log))?,
        LogCall::Look => look(rt, log, record, c.place)?,
        LogCall::Delete => refusal(rt, fenhamper::fenhamper_log_delete(log, c.place))?,
        LogCall::DeleteOutcome => delete_outcome(rt, c, log)?,
        LogCall::Compact => refusal(rt, fenhamper::fenhamper_log_compact(log))?,
    }
    log_told(rt, log)?;
    rt.write_all(b"\n")
}

fn keep_told(rt: &impl Print, [refused, end, next, kept]: [u64; 4]) -> io::Result<()> {
    if refused == 0 {
        print!(rt; " kept {kept} end {end} next {next}")
    } else {
        print!(rt; " refused {refused} next {next}")
    }
}

// A walk that keeps its readings, in the log that the call names as its log.
fn keep(rt: &impl Print, c: &Call, s: Capture) -> io::Result<()> {
    let mut room: [u8; MOST] = zeros();
    let log = &mut room[..c.log.length.min(MOST)];
    fill(c.tape, c.log.at, log);
    let mut state = c.state;
    let mut a = [0; 4];
    fenhamper::fenhamper_walk_log(
        &c.settings,
        c.job,
        &c.table,
        &mut state,
        s.octets,
        s.marks,
        c.place,
        log,
        &mut a,
    );
    keep_told(rt, a)?;
    log_told(rt, log)?;
    changes(rt, &c.state, &state)
}

// ---- calls with the totals of a capture

fn send_counted(c: &Call, what: Sending, b: &mut Buffers, totals: &mut [u16]) -> Sent {
    let mut state = c.state;
    let mut answer = [0; 2];
    match what {
        Sending::Client => fenhamper::fenhamper_send_client_counted(
            &c.settings,
            &mut state,
            c.port,
            b.octets,
            b.marks,
            totals,
            c.place,
            &octets(c.tape, c.client),
            c.data,
            &mut answer,
        ),
        Sending::Pause => fenhamper::fenhamper_send_pause_counted(
            &c.settings,
            &mut state,
            c.port,
            b.octets,
            b.marks,
            totals,
            c.place,
            (c.n % 65536) as u16,
            &mut answer,
        ),
        Sending::Pfc => fenhamper::fenhamper_send_pfc_counted(
            &c.settings,
            &mut state,
            c.port,
            b.octets,
            b.marks,
            totals,
            c.place,
            (c.n % 256) as u8,
            &c.quanta,
            &mut answer,
        ),
        Sending::Idle => fenhamper::fenhamper_fill_idle_counted(
            &mut state,
            b.octets,
            b.marks,
            totals,
            c.place,
            c.n as usize,
            &mut answer,
        ),
    }
    Sent { state, answer }
}

// Those of the totals that are not as on the tape.
fn totals_told(rt: &impl Print, before: &[u16], totals: &[u16]) -> io::Result<()> {
    rt.write_all(b" totals")?;
    changed(rt, 0, before, totals)
}

fn written_counted(
    rt: &impl Print,
    c: &Call,
    what: Sending,
    b: &mut Buffers,
    before: &[u16],
    totals: &mut [u16],
) -> io::Result<()> {
    let r = send_counted(c, what, b, totals);
    went(rt, r.answer, b.capture())?;
    totals_told(rt, before, totals)?;
    changes(rt, &c.state, &r.state)
}

fn fill_all(rt: &impl Print, s: Capture, before: &[u16], totals: &mut [u16]) -> io::Result<()> {
    refusal(
        rt,
        fenhamper::fenhamper_fill_totals(s.octets, s.marks, totals),
    )?;
    totals_told(rt, before, totals)?;
    rt.write_all(b"\n")
}

// How many Starts lie before the place, where the call's number was told before.
fn asked(rt: &impl Print, c: &Call, s: Capture, totals: &[u16]) -> io::Result<()> {
    let mut starts = c.n as usize;
    refusal(
        rt,
        fenhamper::fenhamper_starts_before(s.octets, s.marks, totals, c.place, &mut starts),
    )?;
    println!(rt; " starts {starts}")
}

fn counted(rt: &impl Print, c: &Call, call: TotalsCall, b: &mut Buffers) -> io::Result<()> {
    let before: [u16; 258] = shorts(behind(c.tape, c.totals.at));
    let mut room = before;
    let n = c.totals.length.min(258);
    let totals = &mut room[..n];
    match call {
        TotalsCall::Fill => fill_all(rt, b.capture(), &before, totals),
        TotalsCall::Send(what) => written_counted(rt, c, what, b, &before, totals),
        TotalsCall::StartsBefore => asked(rt, c, b.capture(), totals),
    }
}

// ---- calls of two jobs

// Told is the entry of an address that is added or removed, where the call's number was told before; the address stands in place of the client frame.
fn table_call(rt: &impl Print, c: &Call, call: TableCall) -> io::Result<()> {
    let address = octets(c.tape, c.client);
    let mut table = c.table;
    let mut entry = c.n as usize;
    match call {
        TableCall::Empty => fenhamper::fenhamper_table_empty(&mut table),
        TableCall::Add => {
            refusal(
                rt,
                fenhamper::fenhamper_table_add(&mut table, c.job, &address, &mut entry),
            )?;
            print!(rt; " entry {entry}")?;
        }
        TableCall::Remove => {
            refusal(
                rt,
                fenhamper::fenhamper_table_remove(&mut table, c.job, &address, &mut entry),
            )?;
            print!(rt; " entry {entry}")?;
        }
    }
    let sum = fenhamper::fenhamper_fcs(&table);
    println!(rt; " table {sum:08x}")
}

// What the screen shows of two captures: that of job 1 stands in place of data and log.
fn screen(rt: &impl Print, c: &Call, s: Capture) -> io::Result<()> {
    let other = Capture {
        octets: c.data,
        marks: c.log.on(c.tape),
    };
    let mut p = [1; 2];
    refusal(
        rt,
        fenhamper::fenhamper_screen_data(
            &c.settings,
            c.job,
            &c.table,
            s.octets,
            s.marks,
            other.octets,
            other.marks,
            c.place,
            &mut p,
        ),
    )?;
    let [at, length] = p;
    let shown = if c.job == 0 { s.octets } else { other.octets };
    let sum = fenhamper::fenhamper_fcs(part(shown, at as usize, length as usize));
    println!(rt; " part {at} of {length} sum {sum:08x}")
}

// ---- cases

// So much of each buffer and of a log is used at most.
const MOST: usize = 65537;

// N zeros. Of any N: a check that is given so large a number by itself counts to it.
fn zeros<const N: usize>() -> [u8; N]
    ensures { length result ≡ N }
{
    [0; N]
}

fn called(rt: &impl Print, c: &Call, b: &mut Buffers) -> io::Result<()> {
    // each reading has the name of its own
    if !matches!(c.kind, Kind::Readings) {
        rt.write_all(c.name)?;
    }
    match c.kind {
        Kind::Readings => readings(rt, c, b.capture()),
        Kind::Send(what) => written(rt, c, what, b),
        Kind::Log(call) => logged(rt, c, call, b.octets),
        Kind::Keep => keep(rt, c, b.capture()),
        Kind::Explain => explain(rt, c, b.capture()),
        Kind::Totals(call) => counted(rt, c, call, b),
        Kind::Table(call) => table_call(rt, c, call),
        Kind::Screen => screen(rt, c, b.capture()),
        Kind::Plain => plainly(rt, c, b.capture()),
        Kind::Sizes(call) => sized(rt, c, call, b.capture()),
    }
}

fn case(rt: &impl Print, c: &Call) -> io::Result<()> {
    let mut o: [u8; MOST] = zeros();
    let mut m: [u8; MOST] = zeros();
    let octets = &mut o[..c.octets.length.min(MOST)];
    let marks = &mut m[..c.marks.length.min(MOST)];
    fill(c.tape, c.octets.at, octets);
    fill(c.tape, c.marks.at, marks);
    called(rt, c, &mut Buffers { octets, marks })
}

// The calls lie from the place on that stands first, fifteen numbers each.
fn cases(rt: &impl Print, t: &[u8]) -> io::Result<()> {
    let [first]: [u64; 1] = numbers(t);
    for call in behind(t, first as usize).chunks(120) {
        case(rt, &call_of(t, numbers(call)))?;
    }
    Ok(())
}

// The calls of a tape that ends in the FCS of what is before it, low octet first; of any other none is made.
fn sealed_cases(rt: &impl Print, t: &[u8]) -> io::Result<()> {
    if let Some((before, fcs)) = t.split_last_chunk() {
        if *fcs == fcs::octets(fcs::check(before)) {
            return cases(rt, before);
        }
    }
    rt.write_all(b"bad tape\n")
}

// There is room for the calls of every item to come; of a longer tape the end is not read, so that it is a bad one.
fn main(rt: HostRuntime) -> io::Result<()> {
    let mut tape: [u8; 524288] = zeros();
    let n = limited_input::read_full(&mut rt.stdin(), &mut tape)?;
    sealed_cases(&rt, &tape[..n])
}
