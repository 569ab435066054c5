// The sending calls that keep the totals of a capture (document 02, item 9): each is the call without totals, and then a new count of the blocks that it
// wrote into. Meaning: specs/.
#![tactic(auto)]

ghost use Rattle.std.specs.Prelude.{◌≡◌};
ghost use Rattle.line.specs.Table.{first};
ghost use Rattle.send.specs.Sending.{refused_at};
ghost use Rattle.totals.specs.Totals.{before_refusals};
ghost use Rattle.counting.specs.Counting.{frame_totals, counting, client_counting, pause_counting, pfc_counting, idle_counting};

use send::Sending;
use station::{Port, Quanta, Refusal, Settings, State};
use writing::{Classes, Client};

// The refusals of a frame's call up to 22, on a port and with the deficit count.
pub fn check_frame(
    s: Settings,
    port: Port,
    deficit: u64,
    octets: &[u8],
    marks: &[u8],
    totals: &[u16],
    place: usize,
) -> Result<(), Refusal>
    ensures { result ≡ first (frame_totals s port deficit octets.now marks.now place totals.now) }
{
    if station::bad_settings(s) {
        return Err(Refusal::BadSettings);
    }
    if station::bad_buffers(octets, marks) {
        return Err(Refusal::BadBuffers);
    }
    if station::bad_start(port, octets, place) {
        return Err(Refusal::BadPlace);
    }
    if station::high_deficit(port, deficit) {
        return Err(Refusal::HighDeficit);
    }
    if totals::wrong_totals(octets, totals) {
        return Err(Refusal::WrongTotals);
    }
    if totals::high_total(totals) {
        return Err(Refusal::HighTotal);
    }
    Ok(())
}

// A call that was refused. The same function in `send` is private, since docs/PROMISES.md has a promise for each public one.
fn refused(x: Refusal, place: usize, state: State) -> Sending
    ensures { result ≡ refused_at x place state }
{
    Sending {
        answer: Err(x),
        place,
        state,
    }
}

// A closure over the call without totals would need clauses of its own for both lent buffers: four calls with a body of three steps are plainer.
// A client frame on a port, and the blocks that it lies in counted anew.
pub fn send_client(
    s: Settings,
    state: State,
    port: Port,
    octets: &mut [u8],
    marks: &mut [u8],
    totals: &mut [u16],
    place: usize,
    client: Client,
    data: &[u8],
) -> Sending
    ensures { counting result octets.new marks.new totals.new
        ≡ client_counting s state port octets.old marks.old totals.old place client «data».now }
{
    if let Err(x) = check_frame(s, port, state.deficit, octets, marks, totals, place) {
        return refused(x, place, state);
    }
    let sent = send::send_client(s, state, port, octets, marks, place, client, data);
    totals::recount(octets, marks, totals, place, sent.place);
    sent
}

// A pause frame, likewise.
pub fn send_pause(
    s: Settings,
    state: State,
    port: Port,
    octets: &mut [u8],
    marks: &mut [u8],
    totals: &mut [u16],
    place: usize,
    quanta: Quanta,
) -> Sending
    ensures { counting result octets.new marks.new totals.new
        ≡ pause_counting s state port octets.old marks.old totals.old place quanta }
{
    if let Err(x) = check_frame(s, port, state.deficit, octets, marks, totals, place) {
        return refused(x, place, state);
    }
    let sent = send::send_pause(s, state, port, octets, marks, place, quanta);
    totals::recount(octets, marks, totals, place, sent.place);
    sent
}

// A PFC frame, likewise.
pub fn send_pfc(
    s: Settings,
    state: State,
    port: Port,
    octets: &mut [u8],
    marks: &mut [u8],
    totals: &mut [u16],
    place: usize,
    classes: Classes,
) -> Sending
    ensures { counting result octets.new marks.new totals.new
        ≡ pfc_counting s state port octets.old marks.old totals.old place classes }
{
    if let Err(x) = check_frame(s, port, state.deficit, octets, marks, totals, place) {
        return refused(x, place, state);
    }
    let sent = send::send_pfc(s, state, port, octets, marks, place, classes);
    totals::recount(octets, marks, totals, place, sent.place);
    sent
}

// Idle fill, likewise.
pub fn fill_idle(
    state: State,
    octets: &mut [u8],
    marks: &mut [u8],
    totals: &mut [u16],
    place: usize,
    n: usize,
) -> Sending
    ensures { counting result octets.new marks.new totals.new
        ≡ idle_counting state octets.old marks.old totals.old place n }
{
    if let Err(x) = totals::check_before(octets, marks, totals, place) {
        return refused(x, place, state);
    }
    let sent = send::fill_idle(state, octets, marks, place, n);
    totals::recount(octets, marks, totals, place, sent.place);
    sent
}
