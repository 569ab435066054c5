// Sending (document 01, "Sending", "Refusals and their order"): the refusals of each call, and the call. Meaning: specs/.
#![tactic(auto)]

ghost use Rattle.std.specs.Prelude.{◌≡◌, List, ℕ, ◌+◌, ◌-◌, ◌≤◌, ◌<◌, ◌*◌, ltb, length};
ghost use Rattle.line.specs.Limits.{most_symbols, tag_size, least_data, least_limit, most_class, least_body, around_body};
ghost use Rattle.line.specs.Table.{first};
ghost use Rattle.station.specs.declared.Quanta.{Quanta};
ghost use Rattle.writing.specs.declared.Classes.{Classes};
ghost use Rattle.writing.specs.Frames.{client_body, pause_body, pfc_body};
ghost use Rattle.writing.specs.Gaps.{gap_at, gap_on};
ghost use Rattle.send.specs.Framings.{with_gap};
ghost use Rattle.send.specs.Sending.{refused_at, wrote_up_to, state_sent, bad_class, bad_type, many_tags, long_data, held, client_checked, control_refusals};
ghost use Rattle.send.specs.Sending.{pause_checked, pfc_checked, idle_checked, send_call, client_sending, pause_sending, pfc_sending, idle_sending};

use line::{
    AROUND_BODY, AROUND_DATA, LEAST_BODY, LEAST_DATA, LEAST_TYPE, MOST_CLASS, MOST_LENGTH,
    MOST_TAGS, TAG_SIZE,
};
use station::{Port, Quanta, Refusal, Settings, State};
use writing::{Classes, Client, Form, Gap};

#[derive(Clone, Copy)]
pub struct Sending {
    pub answer: Result<(), Refusal>,
    // the place after what was written; of a refusal the place of the call
    pub place: usize,
    pub state: State,
}

// ---- the refusals, lowest number first

// Refusal 5.
#[tactic(auto, unfolding(crate::specs::Sending::bad_class))]
fn bad_class(c: Client) -> bool
    ensures { result ≡ bad_class c }
{
    MOST_CLASS < c.class
}

// Refusal 6.
#[tactic(auto, unfolding(crate::specs::Sending::bad_type))]
fn bad_type(form: Form) -> bool
    ensures { result ≡ bad_type form }
{
    match form {
        Form::ByLength => false,
        Form::ByType(t) => t < LEAST_TYPE || matches!(t, 0x8100 | 0x8808 | 0x88A8),
    }
}

// Refusal 10.
#[tactic(auto, unfolding(crate::specs::Sending::many_tags))]
fn many_tags(c: Client) -> bool
    ensures { result ≡ many_tags c }
{
    MOST_TAGS < c.count
}

// Refusal 7: the limit is M.
#[tactic(auto, unfolding(crate::specs::Sending::long_data))]
fn long_data(limit: u16, form: Form, d: &[u8]) -> bool
    requires { least_limit ≤ limit }
    ensures { result ≡ long_data limit form d.now }
{
    match form {
        Form::ByLength => MOST_LENGTH < d.len(),
        Form::ByType(_) => usize::from(limit - AROUND_DATA) < d.len(),
    }
}

// Refusal 8: `need` symbols do not fit from a place inside the buffers on. No sum, so that none is too large.
fn no_room(octets: &[u8], place: usize, need: usize) -> bool
    requires { place ≤ length octets.now }
    ensures { result ≡ ltb (length octets.now - place) need }
{
    octets.len() - place < need
}

// Refusal 9.
#[tactic(auto, unfolding(crate::specs::Sending::held, flow::specs::Timers::timer))]
fn held(state: State, class: u8) -> bool
    requires { class ≤ most_class }
    ensures { result ≡ held state class }
{
    0 < state.timers[usize::from(class)].0
}

// How many octets of a client frame its FCS covers: addresses, tags, field, data with its padding.
fn client_size(count: u8, n: usize) -> usize
    requires { n ≤ 65535 }
    ensures { result ≡ 14 + tag_size * count + (n + (least_data - n)) }
{
    14 + TAG_SIZE * usize::from(count) + n.max(LEAST_DATA)
}

// The gap behind a frame on a port, of which the FCS covers `size` octets, with the deficit count before it.
fn gap_behind(port: Port, deficit: u64, place: usize, size: usize) -> Gap
    requires { (place ≤ most_symbols) × (size ≤ 131072) }
    ensures { result ≡ gap_at port (place + around_body + size) deficit }
{
    writing::gap_for(port, place + AROUND_BODY + size, deficit)
}

// The refusals of sending a client frame.
fn check_client(
    s: Settings,
    state: State,
    port: Port,
    octets: &[u8],
    marks: &[u8],
    place: usize,
    client: Client,
    d: &[u8],
) -> Result<Gap, Refusal>
    ensures { result ≡ with_gap (gap_on port state.deficit place (client_body s client d.now))
        (client_checked s state port octets.now marks.now place client d.now) }
{
    if station::bad_settings(s) {
        return Err(Refusal::BadSettings);
    }
    if station::bad_buffers(octets, marks) {
        return Err(Refusal::BadBuffers);
    }
    if station::bad_start(port, octets, place) {
        return Err(Refusal::BadPlace);
    }
    if station::high_deficit(port, state.deficit) {
        return Err(Refusal::HighDeficit);
    }
    if bad_class(client) {
        return Err(Refusal::BadClass);
    }
    if bad_type(client.form) {
        return Err(Refusal::BadType);
    }
    if many_tags(client) {
        return Err(Refusal::ManyTags);
    }
    if long_data(s.limit, client.form, d) {
        return Err(Refusal::LongData);
    }
    let size = client_size(client.count, d.len());
    let gap = gap_behind(port, state.deficit, place, size);
    if no_room(octets, place, AROUND_BODY + size + gap.size) {
        return Err(Refusal::NoRoom);
    }
    if held(state, client.class) {
        return Err(Refusal::Held);
    }
    Ok(gap)
}

// The refusals of sending a pause or PFC frame, in the flow mode asked for or in another.
fn check_control(
    s: Settings,
    port: Port,
    deficit: u64,
    octets: &[u8],
    marks: &[u8],
    place: usize,
    asked: bool,
) -> Result<Gap, Refusal>
    ensures { (body : List ℕ) → length body ≡ least_body
        → result ≡ with_gap (gap_on port deficit place body)
        (first (control_refusals s port deficit octets.now marks.now place asked body)) }
{
    if station::bad_settings(s) {
        return Err(Refusal::BadSettings);
    }
    if station::bad_buffers(octets, marks) {
        return Err(Refusal::BadBuffers);
    }
    if station::bad_start(port, octets, place) {
        return Err(Refusal::BadPlace);
    }
    if station::high_deficit(port, deficit) {
        return Err(Refusal::HighDeficit);
    }
    if !asked {
        return Err(Refusal::OtherFlow);
    }
    let gap = gap_behind(port, deficit, place, LEAST_BODY);
    if no_room(octets, place, AROUND_BODY + LEAST_BODY + gap.size) {
        return Err(Refusal::NoRoom);
    }
    Ok(gap)
}

// The refusals of sending a pause frame.
fn check_pause(
    s: Settings,
    port: Port,
    deficit: u64,
    octets: &[u8],
    marks: &[u8],
    place: usize,
) -> Result<Gap, Refusal>
    ensures { (q : Quanta) → result ≡ with_gap (gap_on port deficit place (pause_body s q))
        (pause_checked s port deficit octets.now marks.now place q) }
{
    check_control(
        s,
        port,
        deficit,
        octets,
        marks,
        place,
        station::is_pause_mode(s.flow),
    )
}

// The refusals of sending a PFC frame.
fn check_pfc(
    s: Settings,
    port: Port,
    deficit: u64,
    octets: &[u8],
    marks: &[u8],
    place: usize,
) -> Result<Gap, Refusal>
    ensures { (k : Classes) → length k.quanta ≡ 8 → result ≡ with_gap (gap_on port deficit place (pfc_body s k))
        (pfc_checked s port deficit octets.now marks.now place k) }
{
    check_control(
        s,
        port,
        deficit,
        octets,
        marks,
        place,
        station::is_pfc_mode(s.flow),
    )
}

// The refusals of Idle fill.
fn check_idle(octets: &[u8], marks: &[u8], place: usize, n: usize) -> Result<(), Refusal>
    ensures { result ≡ idle_checked octets.now marks.now place n }
{
    if station::bad_buffers(octets, marks) {
        return Err(Refusal::BadBuffers);
    }
    if station::bad_place(octets, place) {
        return Err(Refusal::BadPlace);
    }
    if no_room(octets, place, n) {
        return Err(Refusal::NoRoom);
    }
    Ok(())
}

// ---- the four calls

// The state after n symbols were written: each timer is lowered by them, and the deficit count is this one.
#[tactic(auto, unfolding(crate::specs::Sending::state_sent))]
fn state_sent(state: State, n: usize, deficit: u64) -> State
    ensures { result ≡ state_sent state n deficit }
{
    State {
        timers: flow::lower(n, state.timers),
        deficit,
        ..state
    }
}

// A call that was refused: the place and the state are those of the call.
fn refused(x: Refusal, place: usize, state: State) -> Sending
    ensures { result ≡ refused_at x place state }
{
    Sending {
        answer: Err(x),
        place,
        state,
    }
}

// A call that wrote from `place` up to `next`, after which the deficit count is this one.
fn wrote(state: State, place: usize, next: usize, deficit: u64) -> Sending
    requires { place ≤ next }
    ensures { result ≡ wrote_up_to next (state_sent state (next - place) deficit) }
{
    Sending {
        answer: Ok(()),
        place: next,
        state: state_sent(state, next - place, deficit),
    }
}

// A closure that writes the frame would need clauses of its own for both lent buffers: three calls with a body of three lines are plainer.
// A client frame on a port, into the line buffers from `place` on.
pub fn send_client(
    s: Settings,
    state: State,
    port: Port,
    octets: &mut [u8],
    marks: &mut [u8],
    place: usize,
    client: Client,
    data: &[u8],
) -> Sending
    ensures { send_call result octets.new marks.new
        ≡ client_sending s state port octets.old marks.old place client «data».now }
{
    match check_client(s, state, port, octets, marks, place, client, data) {
        Err(x) => refused(x, place, state),
        Ok(gap) => {
            let next = writing::client_at(octets, marks, place, s, client, data, gap.size - 1);
            wrote(state, place, next, gap.count)
        }
    }
}

// A pause frame, whatever the timers say.
pub fn send_pause(
    s: Settings,
    state: State,
    port: Port,
    octets: &mut [u8],
    marks: &mut [u8],
    place: usize,
    quanta: Quanta,
) -> Sending
    ensures { send_call result octets.new marks.new
        ≡ pause_sending s state port octets.old marks.old place quanta }
{
    match check_pause(s, port, state.deficit, octets, marks, place) {
        Err(x) => refused(x, place, state),
        Ok(gap) => {
            let next = writing::pause_at(octets, marks, place, s, quanta, gap.size - 1);
            wrote(state, place, next, gap.count)
        }
    }
}

// A PFC frame, whatever the timers say.
pub fn send_pfc(
    s: Settings,
    state: State,
    port: Port,
    octets: &mut [u8],
    marks: &mut [u8],
    place: usize,
    classes: Classes,
) -> Sending
    ensures { send_call result octets.new marks.new
        ≡ pfc_sending s state port octets.old marks.old place classes }
{
    match check_pfc(s, port, state.deficit, octets, marks, place) {
        Err(x) => refused(x, place, state),
        Ok(gap) => {
            let next = writing::pfc_at(octets, marks, place, s, classes, gap.size - 1);
            wrote(state, place, next, gap.count)
        }
    }
}

// Idle fill: n Idles, whatever the timers say.
pub fn fill_idle(
    state: State,
    octets: &mut [u8],
    marks: &mut [u8],
    place: usize,
    n: usize,
) -> Sending
    ensures { send_call result octets.new marks.new
        ≡ idle_sending state octets.old marks.old place n }
{
    if let Err(x) = check_idle(octets, marks, place, n) {
        return refused(x, place, state);
    }
    let next = writing::idle_at(octets, marks, place, n);
    wrote(state, place, next, state.deficit)
}
