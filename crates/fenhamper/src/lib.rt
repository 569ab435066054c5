// The C face (include/fenhamper.h): each function decodes its records, calls the module's function of that name, and encodes what comes back; crate
// fenhamper_c exports it. Meaning: specs/Face.antt; of the records and answers that cross: crate crossing.
#![tactic(auto)]

ghost use Rattle.std.specs.Prelude.{◌≡◌};
ghost use Rattle.line.specs.Table.{first};
ghost use Rattle.fcs.specs.Fcs.{fcs_of};
ghost use Rattle.crc.specs.Crc.{crc_over};
ghost use Rattle.station.specs.Station.{fresh, screen_of};
ghost use Rattle.table.specs.Entries.{entries_of, address_at};
ghost use Rattle.table.specs.Calls.{empty_table, added, removed};
ghost use Rattle.receive.specs.Reading.{reading};
ghost use Rattle.receive.specs.Walk.{walked};
ghost use Rattle.jobs.specs.Jobs.{screen_answer};
ghost use Rattle.reason.specs.Reasons.{explained};
ghost use Rattle.reading_log.specs.Log.{record_of, appending, record_read, used_records};
ghost use Rattle.reading_log.specs.Room.{deleting, deleting_all, compacting};
ghost use Rattle.reading_log.specs.Readers.{next_step};
ghost use Rattle.logging.specs.Walks.{walk_logged};
ghost use Rattle.send.specs.Sending.{client_sending, pause_sending, pfc_sending, idle_sending};
ghost use Rattle.totals.specs.Totals.{before_place, filled};
ghost use Rattle.plain.specs.Plain.{fresh_plain, step};
ghost use Rattle.sizes.specs.Sizes.{fresh_sizes, adding, add_tables};
ghost use Rattle.counting.specs.Counting.{frame_totals, client_counting, pause_counting, pfc_counting, idle_counting};
ghost use Rattle.crossing.specs.Records.{settings_of, state_of, port_of, client_of, quanta_of, classes_of, record_named};
ghost use Rattle.crossing.specs.Records.{state_numbers, explain_numbers, part_within};
ghost use Rattle.crossing.specs.Given.{record_given, record_told, number_given, number_told};
ghost use Rattle.crossing.specs.Reader.{plain_of, reader_given, reader_told};
ghost use Rattle.crossing.specs.Bands.{sizes_of, sizes_numbers};
ghost use Rattle.fenhamper.specs.Face.{layout, told, read_told, walk_told, wrote, send_told};
ghost use Rattle.fenhamper.specs.Face.{kept, keep_told, lodged, log_told, step_given, step_told, log_given, deleted_told};
ghost use Rattle.fenhamper.specs.Face.{totals_given, fill_told, starts_told, with_totals, count_told};
ghost use Rattle.fenhamper.specs.Face.{table_given, table_told, part_given, part_told, plain_given, plain_told, sizes_given, add_told};

use station::{Quanta, Refusal};

// ---- the functions of the C face

// FENHAMPER_LAYOUT of the header. The symbol's name has it too, so that what was compiled for another layout does not link.
const LAYOUT: u32 = 4;

pub fn fenhamper_layout_4() -> u32
    ensures { result ≡ layout }
{
    LAYOUT
}

pub fn fenhamper_fresh_state(state: &mut [u64; 24])
    ensures { state.new ≡ state_numbers fresh }
{
    *state = crossing::state_numbers(station::fresh_state());
}

pub fn fenhamper_screen(state: &[u64; 24], shown: &mut [u32; 11])
    ensures { shown.new ≡ screen_of (state_of state.now).counters }
{
    *shown = station::screen(crossing::counters(state));
}

pub fn fenhamper_fcs(octets: &[u8]) -> u32
    ensures { result ≡ fcs_of octets.now }
{
    fcs::check(octets)
}

pub fn fenhamper_fcs_update(from: u32, octets: &[u8]) -> u32
    ensures { result ≡ crc_over from octets.now }
{
    fcs::update(from, octets)
}

pub fn fenhamper_read(
    s: &[u8; 24],
    job: u8,
    table: &[u8; 128],
    state: &mut [u64; 24],
    octets: &[u8],
    marks: &[u8],
    place: usize,
    answer: &mut [u64; 12],
)
    ensures { told answer.new state.new
        ≡ read_told state.old (reading (settings_of s.now) job (entries_of table.now) (state_of state.old)
        octets.now marks.now place) }
{
    let r = receive::read(
        crossing::settings(s),
        job,
        table,
        crossing::state_of(state),
        octets,
        marks,
        place,
    );
    *answer = crossing::reading_numbers(r);
    crossing::leave(state, answer[0], r.state);
}

pub fn fenhamper_explain(
    s: &[u8; 24],
    job: u8,
    table: &[u8; 128],
    octets: &[u8],
    marks: &[u8],
    place: usize,
    answer: &mut [u64; 8],
)
    ensures { answer.new
        ≡ explain_numbers (explained (settings_of s.now) job (entries_of table.now) octets.now marks.now place) }
{
    *answer = crossing::explain_numbers(reason::explain(
        crossing::settings(s),
        job,
        table,
        octets,
        marks,
        place,
    ));
}

pub fn fenhamper_client_data(octets: usize, at: usize, length: usize, part: &mut [u64; 2])
    ensures { part.new ≡ part_within octets at length }
{
    *part = crossing::part_within(octets, at, length);
}

pub fn fenhamper_walk(
    s: &[u8; 24],
    job: u8,
    table: &[u8; 128],
    state: &mut [u64; 24],
    octets: &[u8],
    marks: &[u8],
    answer: &mut [u64; 4],
)
    ensures { told answer.new state.new
        ≡ walk_told state.old (walked (settings_of s.now) job (entries_of table.now) (state_of state.old)
        octets.now marks.now) }
{
    let w = receive::walk(
        crossing::settings(s),
        job,
        table,
        crossing::state_of(state),
        octets,
        marks,
    );
    *answer = crossing::walk_numbers(w);
    crossing::leave(state, answer[0], w.state);
}

pub fn fenhamper_send_client(
    s: &[u8; 24],
    state: &mut [u64; 24],
    port: u8,
    octets: &mut [u8],
    marks: &mut [u8],
    place: usize,
    frame: &[u8; 44],
    data: &[u8],
    answer: &mut [u64; 2],
)
    ensures { wrote answer.new state.new octets.new marks.new
        ≡ send_told state.old (client_sending (settings_of s.now) (state_of state.old) (port_of port)
        octets.old marks.old place (client_of frame.now) «data».now) }
{
    let r = send::send_client(
        crossing::settings(s),
        crossing::state_of(state),
        crossing::port_of(port),
        octets,
        marks,
        place,
        crossing::client(frame),
        data,
    );
    *answer = crossing::sent_numbers(r);
    crossing::leave(state, answer[0], r.state);
}

pub fn fenhamper_send_pause(
    s: &[u8; 24],
    state: &mut [u64; 24],
    port: u8,
    octets: &mut [u8],
    marks: &mut [u8],
    place: usize,
    quanta: u16,
    answer: &mut [u64; 2],
)
    ensures { wrote answer.new state.new octets.new marks.new
        ≡ send_told state.old (pause_sending (settings_of s.now) (state_of state.old) (port_of port)
        octets.old marks.old place (quanta_of quanta)) }
{
    let r = send::send_pause(
        crossing::settings(s),
        crossing::state_of(state),
        crossing::port_of(port),
        octets,
        marks,
        place,
        Quanta(quanta),
    );
    *answer = crossing::sent_numbers(r);
    crossing::leave(state, answer[0], r.state);
}

pub fn fenhamper_send_pfc(
    s: &[u8; 24],
    state: &mut [u64; 24],
    port: u8,
    octets: &mut [u8],
    marks: &mut [u8],
    place: usize,
    named: u8,
    quanta: &[u16; 8],
    answer: &mut [u64; 2],
)
    ensures { wrote answer.new state.new octets.new marks.new
        ≡ send_told state.old (pfc_sending (settings_of s.now) (state_of state.old) (port_of port)
        octets.old marks.old place (classes_of named quanta.now)) }
{
    let r = send::send_pfc(
        crossing::settings(s),
        crossing::state_of(state),
        crossing::port_of(port),
        octets,
        marks,
        place,
        crossing::classes(named, quanta),
    );
    *answer = crossing::sent_numbers(r);
    crossing::leave(state, answer[0], r.state);
}

pub fn fenhamper_fill_idle(
    state: &mut [u64; 24],
    octets: &mut [u8],
    marks: &mut [u8],
    place: usize,
    idles: usize,
    answer: &mut [u64; 2],
)
    ensures { wrote answer.new state.new octets.new marks.new
        ≡ send_told state.old (idle_sending (state_of state.old) octets.old marks.old place idles) }
{
    let r = send::fill_idle(crossing::state_of(state), octets, marks, place, idles);
    *answer = crossing::sent_numbers(r);
    crossing::leave(state, answer[0], r.state);
}

pub fn fenhamper_walk_log(
    s: &[u8; 24],
    job: u8,
    table: &[u8; 128],
    state: &mut [u64; 24],
    octets: &[u8],
    marks: &[u8],
    place: usize,
    log: &mut [u8],
    answer: &mut [u64; 4],
)
    ensures { kept answer.new state.new log.new
        ≡ keep_told state.old (walk_logged (settings_of s.now) job (entries_of table.now) (state_of state.old)
        octets.now marks.now place log.old) }
{
    let k = logging::walk_log(
        crossing::settings(s),
        job,
        table,
        crossing::state_of(state),
        octets,
        marks,
        place,
        log,
    );
    *answer = crossing::keep_numbers(k);
    crossing::leave(state, answer[0], k.state);
}

pub fn fenhamper_log_append(log: &mut [u8], record: &[u8; 16]) -> u32
    ensures { lodged result log.new ≡ log_told (appending log.old (record_of «record».now)) }
{
    crossing::logged_number(reading_log::append(log, reading_log::record_of(record)))
}

pub fn fenhamper_log_append_reading(log: &mut [u8], reading: &[u64; 12]) -> u32
    ensures { lodged result log.new ≡ log_told (appending log.old (record_named reading.now)) }
{
    crossing::logged_number(reading_log::append(log, crossing::record_named(reading)))
}

pub fn fenhamper_log_record(log: &[u8], number: usize, record: &mut [u8; 16]) -> u32
    ensures { record_given result «record».new ≡ record_told «record».old (record_read log.now number) }
{
    crossing::give_record(record, reading_log::read_record(log, number))
}

pub fn fenhamper_log_next(log: &[u8], at: &mut usize, record: &mut [u8; 16]) -> u32
    ensures { step_given result at.new «record».new
        ≡ step_told «record».old (next_step log.now at.old) }
{
    let step = reading_log::next_at(log, *at);
    *at = step.at;
    crossing::give_record(record, step.read)
}

pub fn fenhamper_log_used(log: &[u8], used: &mut usize) -> u32
    ensures { number_given result used.new ≡ number_told used.old (used_records log.now) }
{
    crossing::give_number(used, reading_log::used_records(log))
}

pub fn fenhamper_log_delete(log: &mut [u8], number: usize) -> u32
    ensures { lodged result log.new ≡ log_told (deleting log.old number) }
{
    crossing::logged_number(reading_log::delete(log, number))
}

pub fn fenhamper_log_delete_outcome(log: &mut [u8], outcome: u8, deleted: &mut usize) -> u32
    ensures { log_given result deleted.new log.new ≡ deleted_told deleted.old (deleting_all log.old outcome) }
{
    crossing::give_number(deleted, reading_log::delete_outcome(log, outcome))
}

pub fn fenhamper_log_compact(log: &mut [u8]) -> u32
    ensures { lodged result log.new ≡ log_told (compacting log.old) }
{
    crossing::logged_number(reading_log::compact(log))
}

// ---- the functions over the totals of a capture

pub fn fenhamper_fill_totals(octets: &[u8], marks: &[u8], totals: &mut [u16]) -> u32
    ensures { totals_given result totals.new ≡ fill_told (filled octets.now marks.now totals.old) }
{
    crossing::checked_number(totals::fill_totals(octets, marks, totals))
}

pub fn fenhamper_starts_before(
    octets: &[u8],
    marks: &[u8],
    totals: &[u16],
    place: usize,
    starts: &mut usize,
) -> u32
    ensures { number_given result starts.new
        ≡ starts_told starts.old (before_place octets.now marks.now place totals.now) }
{
    crossing::give_entry(starts, totals::starts_before(octets, marks, totals, place))
}

// The tests up to 22 of a frame's call with totals, on what its records stand for.
fn check_counted(
    s: &[u8; 24],
    port: u8,
    state: &[u64; 24],
    octets: &[u8],
    marks: &[u8],
    totals: &[u16],
    place: usize,
) -> Result<(), Refusal>
    ensures { result ≡ first (frame_totals (settings_of s.now) (port_of port) (state_of state.now).deficit
        octets.now marks.now place totals.now) }
{
    counting::check_frame(
        crossing::settings(s),
        crossing::port_of(port),
        state[19],
        octets,
        marks,
        totals,
        place,
    )
}

pub fn fenhamper_send_client_counted(
    s: &[u8; 24],
    state: &mut [u64; 24],
    port: u8,
    octets: &mut [u8],
    marks: &mut [u8],
    totals: &mut [u16],
    place: usize,
    frame: &[u8; 44],
    data: &[u8],
    answer: &mut [u64; 2],
)
    ensures { with_totals answer.new state.new octets.new marks.new totals.new
        ≡ count_told state.old (client_counting (settings_of s.now) (state_of state.old) (port_of port)
        octets.old marks.old totals.old place (client_of frame.now) «data».now) }
{
    if let Err(x) = check_counted(s, port, state, octets, marks, totals, place) {
        *answer = crossing::refused_numbers(x, place);
        return;
    }
    fenhamper_send_client(s, state, port, octets, marks, place, frame, data, answer);
    totals::recount(octets, marks, totals, place, answer[1] as usize);
}

pub fn fenhamper_send_pause_counted(
    s: &[u8; 24],
    state: &mut [u64; 24],
    port: u8,
    octets: &mut [u8],
    marks: &mut [u8],
    totals: &mut [u16],
    place: usize,
    quanta: u16,
    answer: &mut [u64; 2],
)
    ensures { with_totals answer.new state.new octets.new marks.new totals.new
        ≡ count_told state.old (pause_counting (settings_of s.now) (state_of state.old) (port_of port)
        octets.old marks.old totals.old place (quanta_of quanta)) }
{
    if let Err(x) = check_counted(s, port, state, octets, marks, totals, place) {
        *answer = crossing::refused_numbers(x, place);
        return;
    }
    fenhamper_send_pause(s, state, port, octets, marks, place, quanta, answer);
    totals::recount(octets, marks, totals, place, answer[1] as usize);
}

pub fn fenhamper_send_pfc_counted(
    s: &[u8; 24],
    state: &mut [u64; 24],
    port: u8,
    octets: &mut [u8],
    marks: &mut [u8],
    totals: &mut [u16],
    place: usize,
    named: u8,
    quanta: &[u16; 8],
    answer: &mut [u64; 2],
)
    ensures { with_totals answer.new state.new octets.new marks.new totals.new
        ≡ count_told state.old (pfc_counting (settings_of s.now) (state_of state.old) (port_of port)
        octets.old marks.old totals.old place (classes_of named quanta.now)) }
{
    if let Err(x) = check_counted(s, port, state, octets, marks, totals, place) {
        *answer = crossing::refused_numbers(x, place);
        return;
    }
    fenhamper_send_pfc(s, state, port, octets, marks, place, named, quanta, answer);
    totals::recount(octets, marks, totals, place, answer[1] as usize);
}

pub fn fenhamper_fill_idle_counted(
    state: &mut [u64; 24],
    octets: &mut [u8],
    marks: &mut [u8],
    totals: &mut [u16],
    place: usize,
    idles: usize,
    answer: &mut [u64; 2],
)
    ensures { with_totals answer.new state.new octets.new marks.new totals.new
        ≡ count_told state.old (idle_counting (state_of state.old)
        octets.old marks.old totals.old place idles) }
{
    if let Err(x) = totals::check_before(octets, marks, totals, place) {
        *answer = crossing::refused_numbers(x, place);
        return;
    }
    fenhamper_fill_idle(state, octets, marks, place, idles, answer);
    totals::recount(octets, marks, totals, place, answer[1] as usize);
}

// ---- the functions of two jobs: the table that they share, and the screen

pub fn fenhamper_table_empty(table: &mut [u8; 128])
    ensures { table.new ≡ empty_table }
{
    *table = table::empty();
}

pub fn fenhamper_table_add(table: &mut [u8; 128], job: u8, listed: &[u8; 6], at: &mut usize) -> u32
    ensures { table_given result at.new table.new
        ≡ table_told at.old (added job table.old (address_at listed.now 0)) }
{
    crossing::give_entry(at, table::add(job, table, crossing::address(listed, 0)))
}

pub fn fenhamper_table_remove(
    table: &mut [u8; 128],
    job: u8,
    listed: &[u8; 6],
    at: &mut usize,
) -> u32
    ensures { table_given result at.new table.new
        ≡ table_told at.old (removed job table.old (address_at listed.now 0)) }
{
    crossing::give_entry(at, table::remove(job, table, crossing::address(listed, 0)))
}

// By `fenhamper_read`, so that the compiler goes on putting `receive::read` into that one. No state has a part in what it answers.
pub fn fenhamper_screen_data<'a>(
    s: &[u8; 24],
    job: u8,
    table: &[u8; 128],
    octets0: &'a [u8],
    marks0: &'a [u8],
    octets1: &'a [u8],
    marks1: &'a [u8],
    place: usize,
    part: &mut [u64; 2],
) -> u32
    ensures { part_given result part.new
        ≡ part_told (screen_answer (settings_of s.now) job (entries_of table.now)
        octets0.now marks0.now octets1.now marks1.now place) }
{
    let octets = jobs::of_job(job, octets0, octets1);
    let marks = jobs::of_job(job, marks0, marks1);
    let mut state = [0u64; 24];
    let mut read = [0u64; 12];
    fenhamper_read(s, job, table, &mut state, octets, marks, place, &mut read);
    *part = [read[6], read[7]];
    (read[0] % 4294967296) as u32
}

// ---- the functions of the plain reader (document 02, item 12)

pub fn fenhamper_plain_fresh(reader: &mut [u64; 8], first: &mut [u8; 53], last: &mut [u8; 4])
    ensures { reader_given reader.new first.new last.new ≡ reader_told (fresh_plain fresh) }
{
    crossing::give_reader(reader, first, last, plain::fresh(station::fresh_state()));
}

pub fn fenhamper_plain_symbol(
    s: &[u8; 24],
    job: u8,
    table: &[u8; 128],
    state: &mut [u64; 24],
    reader: &mut [u64; 8],
    first: &mut [u8; 53],
    last: &mut [u8; 4],
    octet: u8,
    mark: u8,
    answer: &mut [u64; 8],
)
    ensures { plain_given answer.new reader.new first.new last.new state.new
        ≡ plain_told (reader_given reader.old first.old last.old) state.old
        (step (settings_of s.now) job (entries_of table.now)
        (plain_of reader.old first.old last.old (state_of state.old)) (record { octet = octet; mark = mark })) }
{
    let before = crossing::plain_of(reader, *first, *last, crossing::state_of(state));
    let k = plain::take_symbol(crossing::settings(s), job, table, before, octet, mark);
    *answer = crossing::told_numbers(k.told);
    crossing::leave_reader(reader, first, last, answer[0], k.plain);
    crossing::leave_counted(state, answer[1], k.plain.state);
}

// ---- the functions of the size table (document 02, item 13)

pub fn fenhamper_sizes_fresh(sizes: &mut [u64; 14])
    ensures { sizes.new ≡ sizes_numbers fresh_sizes }
{
    *sizes = crossing::sizes_numbers(sizes::fresh_sizes());
}

pub fn fenhamper_sizes_add_capture(
    s: &[u8; 24],
    job: u8,
    table: &[u8; 128],
    octets: &[u8],
    marks: &[u8],
    sizes: &mut [u64; 14],
) -> u32
    ensures { sizes_given result sizes.new
        ≡ add_told (adding (sizes_of sizes.old) (settings_of s.now) job (entries_of table.now)
        octets.now marks.now) }
{
    let a = sizes::add_capture(
        crossing::sizes_of(sizes),
        crossing::settings(s),
        job,
        table,
        octets,
        marks,
    );
    *sizes = crossing::sizes_numbers(a.sizes);
    crossing::checked_number(a.answer)
}

pub fn fenhamper_sizes_add_table(sizes: &mut [u64; 14], more: &[u64; 14])
    ensures { sizes.new ≡ sizes_numbers (add_tables (sizes_of sizes.old) (sizes_of more.now)) }
{
    let t = crossing::sizes_of(sizes);
    let u = crossing::sizes_of(more);
    *sizes = crossing::sizes_numbers(sizes::add_tables(t, u));
}
