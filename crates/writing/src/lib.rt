// Writing frames as line symbols (document 01, "Sending"): each of the last four functions is one kind of frame, from a place on, where its
// caller has seen that it fits. Meaning: specs/.
#![tactic(auto)]

ghost use Rattle.std.specs.Prelude.{◌≡◌, cond, ◌++◌, ◌+◌, ◌-◌, ◌*◌, ◌%◌, ◌≤◌, ◌<◌, eqb, length, take};
ghost use Rattle.line.specs.Limits.{lead_size, tag_size, least_data, most_tags};
ghost use Rattle.line.specs.Octets.{high_first};
ghost use Rattle.splice.specs.Written.{Put};
ghost use Rattle.writing.specs.Frames.{kind_field, tag_octets, field_sent, padded, client_body, pause_body, class_quanta, pfc_body, client_symbols};
ghost use Rattle.writing.specs.Frames.{pause_symbols, pfc_symbols, idle_symbols};
ghost use Rattle.writing.specs.Gaps.{gap_at};
ghost use Rattle.writing.specs.Pieces.{lead, head_of, control_of, gap_octets, end_of, frame_marks, Laid};

use line::{FULL_GAP, LANES, LEAD_SIZE, LEAST_DATA, MOST_DEFICIT, PLAIN_IDLES};
use splice::{fill, put};
use station::{Address, Port, Quanta, Settings};

// The kinds of tag: 0x8100, and 0x88A8 of a provider.
#[derive(Clone, Copy, Debug, PartialEq, Eq)]
pub enum Kind {
    Customer,
    Service,
}

// The field that stands for a kind of tag.
impl From<Kind> for u16 {
    ghost from_gives = { λ kind n. n ≡ kind_field kind };

    fn from(kind: Kind) -> u16 {
        match kind {
            Kind::Customer => 0x8100,
            Kind::Service => 0x88A8,
        }
    }
}

// A tag: its kind and its tag control.
#[derive(Clone, Copy, Debug, PartialEq, Eq)]
pub struct Tag {
    pub kind: Kind,
    pub control: u16,
}

// The field: the data's length, or a type.
#[derive(Clone, Copy, Debug, PartialEq, Eq)]
pub enum Form {
    ByLength,
    ByType(u16),
}

// A client frame but for its data, which is lent beside it as a slice.
#[derive(Clone, Copy)]
pub struct Client {
    pub dest: Address,
    // the outermost tag first
    pub tags: [Tag; 8],
    // how many of them count, from the front; a number beside the array, since refusal 10 is of one above 8
    pub count: u8,
    pub form: Form,
    pub class: u8,
}

// A gap: how many symbols it is, Terminate included, and the deficit count after it.
#[derive(Clone, Copy, Debug, PartialEq, Eq)]
pub struct Gap {
    pub size: usize,
    pub count: u64,
}

// What a PFC frame says: the class octet, and a count of quanta for each class.
#[derive(Clone, Copy)]
pub struct Classes {
    pub named: u8,
    pub quanta: [Quanta; 8],
}

// ---- writing the octets of a frame, each piece where the last one ended

// Start and the preamble.
const LEAD: [u8; 8] = [0xFB, 0x55, 0x55, 0x55, 0x55, 0x55, 0x55, 0xD5];

// Start, preamble, destination and source.
fn put_head(octets: &mut [u8], dest: Address, own: Address) -> usize
    requires { 20 ≤ length octets.old }
    ensures { Put octets.old 0 (head_of dest.0 own) result octets.new }
{
    let a = put(octets, 0, &LEAD);
    let b = put(octets, a, &dest.0);
    put(octets, b, &own.0)
}

// A number in two octets, high octet first.
fn put_number(octets: &mut [u8], at: usize, n: u16) -> usize
    requires { at + 2 ≤ length octets.old }
    ensures { Put octets.old at (high_first n) result octets.new }
{
    put(octets, at, &n.to_be_bytes())
}

// A tag: its kind and its tag control.
fn put_tag(octets: &mut [u8], at: usize, tag: Tag) -> usize
    requires { at + tag_size ≤ length octets.old }
    ensures { Put octets.old at (high_first (kind_field tag.kind) ++ high_first tag.control) result octets.new }
{
    let a = put_number(octets, at, u16::from(tag.kind));
    put_number(octets, a, tag.control)
}

// A run of tags.
fn put_tags(octets: &mut [u8], at: usize, tags: &[Tag]) -> usize
    requires { at + tag_size * length tags.now ≤ length octets.old }
    ensures { Put octets.old at (tag_octets tags.now) result octets.new }
{
    let mut next = at;
    for tag in tags {
        next = put_tag(octets, next, *tag);
    }
    next
}

// The tags of a client frame. Most frames have none: then the array is not looked at.
fn put_own_tags(octets: &mut [u8], at: usize, client: Client) -> usize
    requires { (client.count ≤ most_tags) × (at + tag_size * client.count ≤ length octets.old) }
    ensures { Put octets.old at (tag_octets (take client.count client.tags)) result octets.new }
{
    if client.count == 0 {
        return at;
    }
    // a copy of the array: a part of the client's own would lay it in memory for a frame with no tags too
    let tags = client.tags;
    put_tags(octets, at, &tags[..usize::from(client.count)])
}

// The field.
fn field_sent(form: Form, d: &[u8]) -> u16
    requires { length d.now < 65536 }
    ensures { result ≡ field_sent form d.now }
{
    match form {
        Form::ByLength => d.len() as u16,
        Form::ByType(t) => t,
    }
}

// The data, padded.
fn put_data(octets: &mut [u8], at: usize, d: &[u8]) -> usize
    requires { at + length (padded d.now) ≤ length octets.old }
    ensures { Put octets.old at (padded d.now) result octets.new }
{
    let a = put(octets, at, d);
    fill(octets, a, LEAST_DATA.saturating_sub(d.len()), 0)
}

// A client frame up to its FCS.
fn put_client(octets: &mut [u8], s: Settings, client: Client, d: &[u8]) -> usize
    requires { (lead_size + length (client_body s client d.now) ≤ length octets.old) × (length d.now < 65536) × (client.count ≤ most_tags) }
    ensures { Put octets.old 0 (lead ++ client_body s client d.now) result octets.new }
{
    let a = put_head(octets, client.dest, s.own);
    let b = put_own_tags(octets, a, client);
    let c = put_number(octets, b, field_sent(client.form, d));
    put_data(octets, c, d)
}

// A control frame up to its opcode.
fn put_control(octets: &mut [u8], own: Address, opcode: u16) -> usize
    requires { 24 ≤ length octets.old }
    ensures { Put octets.old 0 (control_of own opcode) result octets.new }
{
    let group = Address([0x01, 0x80, 0xC2, 0x00, 0x00, 0x01]);
    let a = put_head(octets, group, own);
    let b = put_number(octets, a, 0x8808);
    put_number(octets, b, opcode)
}

// A pause frame up to its FCS.
fn put_pause(octets: &mut [u8], s: Settings, q: Quanta) -> usize
    requires { 68 ≤ length octets.old }
    ensures { Put octets.old 0 (lead ++ pause_body s q) result octets.new }
{
    let a = put_control(octets, s.own, 0x0001);
    let b = put_number(octets, a, q.0);
    fill(octets, b, 42, 0)
}

// The quanta of the class that the lowest bit of `named` stands for: zero if it is not named.
fn quanta_sent(named: u8, q: Quanta) -> u16
    ensures { result ≡ cond (eqb (named % 2) 1) q.0 0 }
{
    if named % 2 == 1 { q.0 } else { 0 }
}

// The quanta of all eight classes.
fn put_quanta(octets: &mut [u8], at: usize, named: u8, quanta: [Quanta; 8]) -> usize
    requires { at + 16 ≤ length octets.old }
    ensures { Put octets.old at (class_quanta named quanta) result octets.new }
{
    let mut left = named;
    let mut next = at;
    for q in &quanta {
        next = put_number(octets, next, quanta_sent(left, *q));
        left /= 2;
    }
    next
}

// A PFC frame up to its FCS.
fn put_pfc(octets: &mut [u8], s: Settings, classes: Classes) -> usize
    requires { 68 ≤ length octets.old }
    ensures { Put octets.old 0 (lead ++ pfc_body s classes) result octets.new }
{
    let a = put_control(octets, s.own, 0x0101);
    let b = put(octets, a, &[0, classes.named]);
    let c = put_quanta(octets, b, classes.named, classes.quanta);
    fill(octets, c, 26, 0)
}

// ---- what all frames end in

// The gap behind a frame, from place `at` on, and the deficit count after it. A gap of 12 ends as far past a multiple of four as it begins, and the
// count is held against what is left up to 3: so nothing can be too large, for any place and count.
pub fn gap_for(port: Port, at: usize, count: u64) -> Gap
    ensures { result ≡ gap_at port at count }
{
    let Port::FourLane = port else {
        return Gap {
            size: FULL_GAP,
            count,
        };
    };
    let r = (at % LANES) as u64;
    if count <= MOST_DEFICIT - r {
        return Gap {
            size: FULL_GAP - r as usize,
            count: count + r,
        };
    }
    let more = LANES as u64 - r;
    Gap {
        size: FULL_GAP + more as usize,
        count: count - more,
    }
}

// The gap: Terminate and Idles. A plain port's is filled with its very number, of which the compiler makes a few stores.
fn put_gap(octets: &mut [u8], at: usize, idles: usize) -> usize
    requires { at + (idles + 1) ≤ length octets.old }
    ensures { Put octets.old at (gap_octets idles) result octets.new }
{
    let a = put(octets, at, &[0xFD]);
    if idles == PLAIN_IDLES {
        return fill(octets, a, PLAIN_IDLES, 0x07);
    }
    fill(octets, a, idles, 0x07)
}

// The FCS of a frame that is written up to `at`, and the gap.
fn put_end(octets: &mut [u8], at: usize, idles: usize) -> usize
    requires { (lead_size ≤ at) × (at + (idles + 5) ≤ length octets.old) }
    ensures { Put octets.old at (end_of idles octets.old at) result octets.new }
{
    let check = fcs::octets(fcs::check(&octets[LEAD_SIZE..at]));
    let a = put(octets, at, &check);
    put_gap(octets, a, idles)
}

// The marks of a frame of n symbols.
fn put_marks(marks: &mut [u8], n: usize, idles: usize) -> usize
    requires { (idles + 2 ≤ n) × (n ≤ length marks.old) }
    ensures { Put marks.old 0 (frame_marks idles n) result marks.new }
{
    let a = put(marks, 0, &[1]);
    let b = fill(marks, a, n - (idles + 2), 0);
    fill(marks, b, idles + 1, 1)
}

// A frame that is written up to its FCS at `at`: its marks, and then, as the octets are in memory by now, its end.
fn finish(octets: &mut [u8], marks: &mut [u8], at: usize, idles: usize) -> usize
    requires { (lead_size ≤ at) × (at + (idles + 5) ≤ length octets.old) × (at + (idles + 5) ≤ length marks.old) }
    ensures octets { Put octets.old at (end_of idles octets.old at) result octets.new }
    ensures marks { Put marks.old 0 (frame_marks idles result) result marks.new }
{
    put_marks(marks, at + (idles + 5), idles);
    put_end(octets, at, idles)
}

// ---- frames and Idles from a place on: a frame's writers are lent the part of each buffer from there. Public for this repository's crates
// only, since each asks for the room that it writes to

pub fn client_at(
    octets: &mut [u8],
    marks: &mut [u8],
    place: usize,
    s: Settings,
    client: Client,
    d: &[u8],
    idles: usize,
) -> usize
    requires { (place + length (client_symbols idles s client d.now) ≤ length octets.old)
        × (place + length (client_symbols idles s client d.now) ≤ length marks.old) × (length d.now < 65536) × (client.count ≤ most_tags) }
    ensures { Laid octets.old marks.old place (client_symbols idles s client d.now) result
        octets.new marks.new }
{
    let part = &mut octets[place..];
    let a = put_client(part, s, client, d);
    place + finish(part, &mut marks[place..], a, idles)
}

pub fn pause_at(
    octets: &mut [u8],
    marks: &mut [u8],
    place: usize,
    s: Settings,
    q: Quanta,
    idles: usize,
) -> usize
    requires { (place + length (pause_symbols idles s q) ≤ length octets.old) × (place + length (pause_symbols idles s q) ≤ length marks.old) }
    ensures { Laid octets.old marks.old place (pause_symbols idles s q) result octets.new marks.new }
{
    let part = &mut octets[place..];
    let a = put_pause(part, s, q);
    place + finish(part, &mut marks[place..], a, idles)
}

pub fn pfc_at(
    octets: &mut [u8],
    marks: &mut [u8],
    place: usize,
    s: Settings,
    classes: Classes,
    idles: usize,
) -> usize
    requires { (place + length (pfc_symbols idles s classes) ≤ length octets.old) × (place + length (pfc_symbols idles s classes) ≤ length marks.old) }
    ensures { Laid octets.old marks.old place (pfc_symbols idles s classes) result octets.new marks.new }
{
    let part = &mut octets[place..];
    let a = put_pfc(part, s, classes);
    place + finish(part, &mut marks[place..], a, idles)
}

pub fn idle_at(octets: &mut [u8], marks: &mut [u8], place: usize, n: usize) -> usize
    requires { (place + n ≤ length octets.old) × (place + n ≤ length marks.old) }
    ensures { Laid octets.old marks.old place (idle_symbols n) result octets.new marks.new }
{
    fill(octets, place, n, 0x07);
    fill(marks, place, n, 1)
}
