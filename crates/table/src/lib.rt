// The address table that two jobs share (document 02, item 10): who holds which entry, which address lets a frame in, and the calls that add and remove.
// Meaning: specs/.
// The caller lends its 128 octets, eight for each of 16 entries: who holds it (0 nobody, 1 job 0, 2 job 1, any other nobody), the six of the address,
// and a spare one. `f` is always a whole frame.
#![tactic(auto)]

ghost use Rattle.std.specs.Prelude.{◌≡◌, true, false, ℕ, ◌≤◌, ◌<◌, ◌+◌, ◌*◌, length, get_or, drop};
ghost use Rattle.fields.specs.Fields.{destination};
ghost use Rattle.table.specs.Entries.{holder_by, address_at, entry_at, entries_of, is_held, free_entry, own_at, own_entries, held, names, first_mine};
ghost use Rattle.line.specs.Limits.{table_entries};
ghost use Rattle.line.specs.Table.{first};
ghost use Rattle.table.specs.Calls.{empty_table, freed, taken, holder_octet, put_entry, add_refusals, remove_refusals, change, put_at, added, removed};
ghost use Rattle.table.specs.Tests.{bad_job, again, twice, overfull, bad_table};
ghost use Rattle.table.specs.Steps.{Met};
ghost use Rattle.table.specs.Way.{accepts, otherwise_way, entry_way, way};

use line::{MOST_HELD, TABLE_ENTRIES};
use station::{Address, Refusal, Settings};

// Who holds an entry.
#[derive(Clone, Copy, Debug, PartialEq, Eq)]
pub enum Holder {
    Nobody,
    JobZero,
    JobOne,
}

// By the entry's first octet.
impl From<u8> for Holder {
    ghost from_gives = { λ octet h. h ≡ holder_by octet };

    fn from(octet: u8) -> Holder {
        match octet {
            1 => Holder::JobZero,
            2 => Holder::JobOne,
            _ => Holder::Nobody,
        }
    }
}

impl From<Holder> for u8 {
    ghost from_gives = { λ h octet. octet ≡ holder_octet h };

    fn from(holder: Holder) -> u8 {
        match holder {
            Holder::Nobody => 0,
            Holder::JobZero => 1,
            Holder::JobOne => 2,
        }
    }
}

#[derive(Clone, Copy)]
pub struct Entry {
    pub holder: Holder,
    pub address: Address,
}

// ---- entries

// Whether a job holds entry k, by the entry's first octet.
fn holds_at(job: u8, t: &[u8; 128], k: usize) -> bool
    requires { k < table_entries }
    ensures { result ≡ is_held job (entry_at t.now k).holder }
{
    if 1 < job {
        return false;
    }
    t[8 * k] == job + 1
}

// The address of an entry, whoever holds it: six octets from `at` on.
fn address_at(t: &[u8; 128], at: usize) -> Address
    requires { at + 6 ≤ 128 }
    ensures { result ≡ address_at t.now at }
{
    Address([t[at], t[at + 1], t[at + 2], t[at + 3], t[at + 4], t[at + 5]])
}

// ---- searches

// Whether entry k lists a frame's destination for a job.
fn names_at(job: u8, t: &[u8; 128], k: usize, f: &[u8]) -> bool
    requires { k < table_entries }
    ensures { result ≡ names (destination f.now) (own_at job (entry_at t.now k)) }
{
    if !holds_at(job, t, k) {
        return false;
    }
    let a = address_at(t, 8 * k + 1);
    address::to(f, a)
}

// The first entry at `from` or later that lists a frame's destination for a job.
fn find_from(job: u8, t: &[u8; 128], from: usize, f: &[u8]) -> Option<usize>
    requires { from ≤ table_entries }
    ensures { (result ≡ first_mine (destination f.now) from (drop from (own_entries job t.now)))
        × ((i : ℕ) → result ≡ Some i → i < table_entries) }
{
    for k in from..TABLE_ENTRIES {
        if names_at(job, t, k, f) {
            return Some(k);
        }
    }
    None
}

// ---- the address rule

// It asks for no number, and so promiscuous comes first.
pub fn accepts(s: Settings, job: u8, t: &[u8; 128], f: &[u8]) -> bool
    ensures { result ≡ accepts s (own_entries job t.now) (destination f.now) }
{
    if s.promiscuous {
        return true;
    }
    if address::is_broadcast(f) {
        return s.broadcast;
    }
    if address::to(f, s.own) {
        return true;
    }
    find_from(job, t, 0, f).is_some()
}

// What is said where no address matches: 7 for promiscuous only, else 0.
fn otherwise_way(promiscuous: bool) -> u8
    ensures { result ≡ otherwise_way promiscuous }
{
    if promiscuous { 7 } else { 0 }
}

// 16 and the entry. An entry fits an octet: `u8::try_from` would bring a case that cannot come.
fn entry_way(found: Option<usize>, promiscuous: bool) -> u8
    requires { (i : ℕ) → found ≡ Some i → i < table_entries }
    ensures { result ≡ entry_way found promiscuous }
{
    let Some(k) = found else {
        return otherwise_way(promiscuous);
    };
    16 + (k as u8)
}

// Which address lets a frame in: 1 own, 16 and the entry for a listed one, 6 broadcast, 7 promiscuous only, 0 not accepted.
pub fn way(s: Settings, job: u8, t: &[u8; 128], f: &[u8]) -> u8
    ensures { result ≡ way s (own_entries job t.now) (destination f.now) }
{
    if address::is_broadcast(f) {
        if s.broadcast {
            return 6;
        }
        return otherwise_way(s.promiscuous);
    }
    if address::to(f, s.own) {
        return 1;
    }
    let found = find_from(job, t, 0, f);
    entry_way(found, s.promiscuous)
}

// ---- refusals

// Refusal 14.
pub fn bad_job(job: u8) -> bool
    ensures { result ≡ bad_job job }
{
    1 < job
}

// How many entries a job holds.
pub fn holds(job: u8, t: &[u8; 128]) -> usize
    ensures { result ≡ held (own_entries job t.now) }
{
    let mut n: usize = 0;
    for k in 0..TABLE_ENTRIES {
        n += usize::from(holds_at(job, t, k));
    }
    n
}

// Whether a job holds entry k and lists its address by a later one too.
fn again(job: u8, t: &[u8; 128], k: usize) -> bool
    requires { k < table_entries }
    ensures { result ≡ again (own_at job (entry_at t.now k)) (drop (k + 1) (own_entries job t.now)) }
{
    if !holds_at(job, t, k) {
        return false;
    }
    let a = address_at(t, 8 * k + 1);
    find_from(job, t, k + 1, &a.0).is_some()
}

// The last octet of an entry's address.
fn last_octet(t: &[u8; 128], k: usize) -> u8
    requires { k < table_entries }
    ensures { result ≡ get_or t.now (8 * k + 6) 0 }
{
    t[8 * k + 6]
}

// Marks the last octet of entry k's address, if the entry is the job's. Whether it was marked before.
fn met(job: u8, t: &[u8; 128], k: usize, seen: &mut [u8; 256]) -> bool
    requires { k < table_entries }
    ensures { result ≡ false → Met (own_at job (entry_at t.now k)) seen.old seen.new }
{
    if !holds_at(job, t, k) {
        return false;
    }
    let last = usize::from(last_octet(t, k));
    if seen[last] != 0 {
        return true;
    }
    seen[last] = 1;
    false
}

// Whether a job's addresses end in octets that differ: then it has none twice, and no pair needs a look.
fn ends_differ(job: u8, t: &[u8; 128]) -> bool
    ensures { result ≡ true → twice (own_entries job t.now) ≡ false }
{
    let mut seen = [0u8; 256];
    for k in (0..TABLE_ENTRIES).rev() {
        if met(job, t, k, &mut seen) {
            return false;
        }
    }
    true
}

// Whether a job has an address twice. Pairs are looked at only if two of its addresses end alike.
fn has_twice(job: u8, t: &[u8; 128]) -> bool
    ensures { result ≡ twice (own_entries job t.now) }
{
    if ends_differ(job, t) {
        return false;
    }
    for k in 0..TABLE_ENTRIES {
        if again(job, t, k) {
            return true;
        }
    }
    false
}

fn is_overfull(job: u8, t: &[u8; 128]) -> bool
    ensures { result ≡ overfull (own_entries job t.now) }
{
    if MOST_HELD < holds(job, t) {
        return true;
    }
    has_twice(job, t)
}

// Whether all octets are 0, as in a table that nobody holds an entry of. Such a table needs no further look. It looks at all 128, so that the compiler can
// take sixteen at a time.
fn is_blank(t: &[u8; 128]) -> bool
    ensures { result ≡ true → (k : ℕ) → k < 128 → get_or t.now k 0 ≡ 0 }
{
    let mut blank = true;
    for x in t {
        blank &= *x == 0;
    }
    blank
}

// Refusal 20.
pub fn bad_table(t: &[u8; 128]) -> bool
    ensures { result ≡ bad_table (entries_of t.now) }
{
    if is_blank(t) {
        return false;
    }
    if is_overfull(0, t) {
        return true;
    }
    is_overfull(1, t)
}

// ---- the table calls

// A table that nobody holds an entry of.
pub fn empty() -> [u8; 128]
    ensures { result ≡ empty_table }
{
    [0u8; 128]
}

// An entry of a table, for whoever shows it. There are 16, and any further one is free.
pub fn entry_of(t: &[u8; 128], k: usize) -> Entry
    ensures { result ≡ get_or (entries_of t.now) k freed }
{
    if TABLE_ENTRIES <= k {
        return Entry {
            holder: Holder::Nobody,
            address: Address([0u8; 6]),
        };
    }
    let holder = Holder::from(t[8 * k]);
    let address = address_at(t, 8 * k + 1);
    Entry { holder, address }
}

// The lowest free entry.
fn free_entry(t: &[u8; 128]) -> Option<usize>
    ensures { (result ≡ free_entry (entries_of t.now)) × ((i : ℕ) → result ≡ Some i → i < table_entries) }
{
    for k in 0..TABLE_ENTRIES {
        if Holder::from(t[8 * k]) == Holder::Nobody {
            return Some(k);
        }
    }
    None
}

// The entry by which a job lists an address.
fn find_address(job: u8, t: &[u8; 128], a: Address) -> Option<usize>
    ensures { (result ≡ first_mine a.0 0 (own_entries job t.now)) × ((i : ℕ) → result ≡ Some i → i < table_entries) }
{
    find_from(job, t, 0, &a.0)
}

// The refusals of an addition, in their order; `free` is the lowest free entry.
fn check_add(job: u8, t: &[u8; 128], a: Address, free: Option<usize>) -> Result<(), Refusal>
    ensures { free ≡ free_entry (entries_of t.now) → result ≡ first (add_refusals job (entries_of t.now) a) }
{
    if bad_job(job) {
        return Err(Refusal::BadJob);
    }
    if bad_table(t) {
        return Err(Refusal::BadTable);
    }
    if find_address(job, t, a).is_some() {
        return Err(Refusal::AlreadyListed);
    }
    if MOST_HELD <= holds(job, t) {
        return Err(Refusal::HoldsTwelve);
    }
    if free.is_none() {
        return Err(Refusal::AllInUse);
    }
    Ok(())
}

// The refusals of a removal, in their order; `found` is the entry by which the job lists the address.
fn check_remove(job: u8, t: &[u8; 128], a: Address, found: Option<usize>) -> Result<(), Refusal>
    ensures { found ≡ first_mine a.0 0 (own_entries job t.now) → result ≡ first (remove_refusals job (entries_of t.now) a) }
{
    if bad_job(job) {
        return Err(Refusal::BadJob);
    }
    if bad_table(t) {
        return Err(Refusal::BadTable);
    }
    if found.is_none() {
        return Err(Refusal::NotListed);
    }
    Ok(())
}

// An entry that a job takes.
fn taken_by(job: u8, address: Address) -> Entry
    ensures { result ≡ taken job address }
{
    let holder = if job == 0 {
        Holder::JobZero
    } else {
        Holder::JobOne
    };
    Entry { holder, address }
}

// Eight octets: an entry in its place. One by one: a slice's `copy_from_slice` would call `memcpy`.
fn put_entry(t: &mut [u8; 128], k: usize, e: Entry)
    requires { k < table_entries }
    ensures { t.new ≡ put_entry t.old k e }
{
    let octets = e.address.0;
    let at = 8 * k;
    t[at] = u8::from(e.holder);
    t[at + 1] = octets[0];
    t[at + 2] = octets[1];
    t[at + 3] = octets[2];
    t[at + 4] = octets[3];
    t[at + 5] = octets[4];
    t[at + 6] = octets[5];
    t[at + 7] = 0;
}

// An entry in the place that was found.
fn put_at(found: Option<usize>, t: &mut [u8; 128], e: Entry) -> Result<usize, Refusal>
    requires { (i : ℕ) → found ≡ Some i → i < table_entries }
    ensures { change result t.new ≡ put_at found t.old e }
{
    let k = found.ok_or(Refusal::AllInUse)?;
    put_entry(t, k, e);
    Ok(k)
}

// An addition takes the lowest free entry.
pub fn add(job: u8, t: &mut [u8; 128], a: Address) -> Result<usize, Refusal>
    ensures { change result t.new ≡ added job t.old a }
{
    let free = free_entry(t);
    check_add(job, t, a, free)?;
    put_at(free, t, taken_by(job, a))
}

// A removal frees the entry by which the job lists the address.
pub fn remove(job: u8, t: &mut [u8; 128], a: Address) -> Result<usize, Refusal>
    ensures { change result t.new ≡ removed job t.old a }
{
    let found = find_address(job, t, a);
    check_remove(job, t, a, found)?;
    let e = Entry {
        holder: Holder::Nobody,
        address: Address([0u8; 6]),
    };
    put_at(found, t, e)
}
