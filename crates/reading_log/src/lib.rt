// The reading log (document 02, items 4 and 11): records of 16 octets in a lent buffer. Meaning: specs/.
#![tactic(auto)]

ghost use Rattle.std.specs.Prelude.{◌≡◌, ◌+◌, ◌*◌, ◌%◌, ◌≤◌, ◌<◌, ◌^◌, ◌++◌, ◌≢◌, length, MatchResult};
ghost use Rattle.line.specs.Limits.{record_size};
ghost use Rattle.line.specs.Line.{overwrite};
ghost use Rattle.splice.specs.Written.{Put};
ghost use Rattle.reading_log.specs.declared.LogRefusal.TheVariants.{BadLog};
ghost use Rattle.reading_log.specs.Numbers.{log_refusal_number};
ghost use Rattle.reading_log.specs.Log.{low_octets, octets_of_record, record_of, used_count, extent, compacted, roomy};
ghost use Rattle.reading_log.specs.Log.{logging, appending, record_read, used_records};
ghost use Rattle.reading_log.specs.Room.{deleting, numbered, deleting_all, compacting};
ghost use Rattle.reading_log.specs.Readers.{next_used, next_step, reader_of, handing, hand_out};
ghost use Rattle.reading_log.specs.Steps.{moved_log, moved_count};

use line::RECORD_SIZE;

// The five fields of a record, at their widths.
#[derive(Clone, Copy)]
pub struct Record {
    pub place: u32,
    // an outcome's number; 0 for `none`, `open` and a refused reading: no enum, since any octet may stand there in a lent log
    pub outcome: u8,
    // which address let the frame in (item 7), 0 where none is said
    pub way: u8,
    // octets handed out
    pub handed: u16,
    pub status: u64,
}

// Refusals 11 to 13.
#[derive(Clone, Copy, Debug, PartialEq, Eq)]
pub enum LogRefusal {
    BadLog,
    LogFull,
    NotUsed,
}

// What a reader hands out, and its record number after that.
#[derive(Clone, Copy)]
pub struct Step {
    pub read: Result<Record, LogRefusal>,
    pub at: usize,
}

// Document 02's number of a refusal.
pub fn refusal_number(r: LogRefusal) -> u8
    ensures { result ≡ log_refusal_number r }
{
    match r {
        LogRefusal::BadLog => 11,
        LogRefusal::LogFull => 12,
        LogRefusal::NotUsed => 13,
    }
}

// ---- numbers, low octet first

// A number as n octets over dst from `at` on; the place behind them.
fn put_low(dst: &mut [u8], at: usize, n: usize, x: u64) -> usize
    requires { at + n ≤ length dst.old }
    ensures next { result ≡ at + n }
    ensures holds { Put dst.old at (low_octets n x) result dst.new }
{
    let mut y = x;
    for j in 0..n {
        dst[at + j] = (y % 256) as u8;
        y /= 256;
    }
    at + n
}

// ---- one record in 16 octets

// A record over record k of the log, whatever stands there: five numbers. For this repository's crates only, since it asks that the log has record k.
pub fn write_record(log: &mut [u8], k: usize, r: Record)
    requires { record_size * k + record_size ≤ length log.old }
    ensures { log.new ≡ overwrite log.old (record_size * k) (octets_of_record r) }
{
    let a = put_low(log, RECORD_SIZE * k, 4, u64::from(r.place));
    let b = put_low(log, a, 1, u64::from(r.outcome));
    let c = put_low(log, b, 1, u64::from(r.way));
    let d = put_low(log, c, 2, u64::from(r.handed));
    put_low(log, d, 8, r.status);
}

// The record that stands in 16 octets. For this repository's crates only, since it asks that there are 16.
pub fn record_of(s: &[u8]) -> Record
    requires { length s.now ≡ record_size }
    ensures { result ≡ record_of s.now }
{
    Record {
        place: u32::from_le_bytes([s[0], s[1], s[2], s[3]]),
        outcome: s[4],
        way: s[5],
        handed: u16::from_le_bytes([s[6], s[7]]),
        status: u64::from_le_bytes([s[8], s[9], s[10], s[11], s[12], s[13], s[14], s[15]]),
    }
}

// ---- the log

// Refusal 11, which every call tries first.
fn checked(log: &[u8]) -> Result<(), LogRefusal>
    ensures { MatchResult result (λ _. length log.now % record_size ≡ 0) (λ e. (e ≡ BadLog) × (length log.now % record_size ≢ 0)) }
{
    if log.len() % RECORD_SIZE != 0 {
        return Err(LogRefusal::BadLog);
    }
    Ok(())
}

// How many records there are up to the last used one, that one included: the number of the slot behind it. The search begins at the end.
pub fn extent_of(log: &[u8]) -> usize
    ensures { result ≡ extent log.now }
{
    for last in (0..log.len() / RECORD_SIZE).rev() {
        if log[RECORD_SIZE * last + 4] != 0 {
            return last + 1;
        }
    }
    0
}

// How many records are used.
pub fn used_records(log: &[u8]) -> Result<usize, LogRefusal>
    ensures { result ≡ used_records log.now }
{
    checked(log)?;
    let mut used: usize = 0;
    for i in 0..log.len() / RECORD_SIZE {
        if log[RECORD_SIZE * i + 4] != 0 {
            used += 1;
        }
    }
    Ok(used)
}

// ---- compaction

// Moves record k to place j if it is used; the place behind what is kept. A record that stands there already is not written.
fn keep_record(log: &mut [u8], k: usize, j: usize) -> usize
    requires { (j ≤ k) × (record_size * k + record_size ≤ length log.old) }
    ensures { (log.new ≡ moved_log log.old k j) × (result ≡ moved_count log.old k j) }
{
    let from = RECORD_SIZE * k;
    if log[from + 4] == 0 {
        return j;
    }
    if j == k {
        return j + 1;
    }
    let r = record_of(&log[from..from + RECORD_SIZE]);
    write_record(log, j, r);
    j + 1
}

// Moves the used records to the front and fills the rest with zero octets, in one pass; how many are used.
fn compact_front(log: &mut [u8]) -> usize
    requires { length log.old % record_size ≡ 0 }
    ensures { (log.new ≡ compacted log.old) × (result ≡ used_count log.old) }
{
    let records = log.len() / RECORD_SIZE;
    let mut j: usize = 0;
    for k in 0..records {
        j = keep_record(log, k, j);
    }
    log[RECORD_SIZE * j..].fill(0);
    j
}

// Sees to room behind the last used record, where there are k records up to that one; how many there are then. For this repository's crates only, since
// it asks for k: a caller who appends record after record searches once.
pub fn room(log: &mut [u8], k: usize) -> usize
    requires { (length log.old % record_size ≡ 0) × (k ≡ extent log.old) }
    ensures { (log.new ≡ roomy log.old) × (result ≡ extent (roomy log.old)) }
{
    if k == log.len() / RECORD_SIZE {
        return compact_front(log);
    }
    k
}

// Moves the records that remain to the front, and fills the rest with zero octets.
pub fn compact(log: &mut [u8]) -> Result<(), LogRefusal>
    ensures { logging result log.new ≡ compacting log.old }
{
    checked(log)?;
    compact_front(log);
    Ok(())
}

// ---- appending and deleting

// Appends a record behind the last used one; a record of outcome 0 is not appended.
pub fn append(log: &mut [u8], r: Record) -> Result<(), LogRefusal>
    ensures { logging result log.new ≡ appending log.old r }
{
    checked(log)?;
    if r.outcome == 0 {
        return Ok(());
    }
    let last = extent_of(log);
    let k = room(log, last);
    let count = log.len() / RECORD_SIZE;
    if k == count {
        return Err(LogRefusal::LogFull);
    }
    write_record(log, k, r);
    Ok(())
}

// Deletes a record: its outcome octet becomes 0.
pub fn delete(log: &mut [u8], k: usize) -> Result<(), LogRefusal>
    ensures { logging result log.new ≡ deleting log.old k }
{
    checked(log)?;
    if log.len() / RECORD_SIZE <= k {
        return Err(LogRefusal::NotUsed);
    }
    let at = RECORD_SIZE * k + 4;
    if log[at] == 0 {
        return Err(LogRefusal::NotUsed);
    }
    log[at] = 0;
    Ok(())
}

// Deletes every record of an outcome; how many these were. Outcome 0 is that of no used record.
pub fn delete_outcome(log: &mut [u8], outcome: u8) -> Result<usize, LogRefusal>
    ensures { numbered result log.new ≡ deleting_all log.old outcome }
{
    checked(log)?;
    if outcome == 0 {
        return Ok(0);
    }
    let records = log.len() / RECORD_SIZE;
    let mut deleted: usize = 0;
    for i in 0..records {
        let at = RECORD_SIZE * i + 4;
        if log[at] == outcome {
            log[at] = 0;
            deleted += 1;
        }
    }
    Ok(deleted)
}

// ---- reading

// The record of a stated number.
pub fn read_record(log: &[u8], k: usize) -> Result<Record, LogRefusal>
    ensures { result ≡ record_read log.now k }
{
    checked(log)?;
    if log.len() / RECORD_SIZE <= k {
        return Err(LogRefusal::NotUsed);
    }
    let a = RECORD_SIZE * k;
    let s = &log[a..a + RECORD_SIZE];
    if s[4] == 0 {
        return Err(LogRefusal::NotUsed);
    }
    Ok(record_of(s))
}

// ---- a reader

// The first used record from a number on; where there is none, the number of records, or the number itself beyond them.
fn next_used(log: &[u8], at: usize) -> usize
    ensures { result ≡ next_used log.now at }
{
    let records = log.len() / RECORD_SIZE;
    for k in at..records {
        if log[RECORD_SIZE * k + 4] != 0 {
            return k;
        }
    }
    at.max(records)
}

// The work of a reader: what it hands out from a record number on, deleted records skipped, and the number after that. Every caller with a slice and a
// number uses this one.
pub fn next_at(log: &[u8], at: usize) -> Step
    ensures { result ≡ next_step log.now at }
{
    let k = next_used(log, at);
    match read_record(log, k) {
        Ok(r) => Step {
            read: Ok(r),
            at: k + 1,
        },
        Err(x) => Step { read: Err(x), at },
    }
}

// A reader keeps the lent log and its place, a record number: document 02, item 4, asks for one.
#[derive(Drop)]
pub struct Reader<'a> {
    pub log: &'a [u8],
    pub at: usize,
}

// A reader of a log from its first record on.
pub fn reader_of<'a>(log: &'a [u8]) -> Reader<'a>
    ensures { result ≡ reader_of log.entry }
{
    Reader { log, at: 0 }
}

// Hands out the next record, and moves the reader's own place on; a refusal leaves it.
pub fn next<'a>(r: &mut Reader<'a>) -> Result<Record, LogRefusal>
    ensures { handing result r.new ≡ hand_out r.old }
{
    let s = next_at(r.log, r.at);
    r.at = s.at;
    s.read
}
