// A reader that takes one symbol at a time (document 02, item 12). It keeps no capture: of the run in progress it keeps a count, the first octets,
// the last four and a running FCS, and it answers at the control symbol that ends the run. Meaning: specs/.
#![tactic(auto)]

ghost use Rattle.std.specs.Prelude.{◌≡◌};
ghost use Rattle.table.specs.Entries.{entries_of};
ghost use Rattle.plain.specs.Plain.{fresh_plain, grown, step};

use kept::{Run, Told};
use line::{FCS_SIZE, PREAMBLE_SIZE};
use station::{Settings, State};

// The reader between two symbols.
#[derive(Clone, Copy)]
pub struct Plain {
    // how many symbols were taken, which is the place of the next one
    pub place: u32,
    // whether the last control symbol was a Start: then a run is in progress, and a capture that ends here ends `open`
    pub running: bool,
    // what is kept of the data behind that control symbol
    pub run: Run,
    // counters and timers
    pub state: State,
}

// What is told at a symbol, and the reader behind it.
#[derive(Clone, Copy)]
pub struct Step {
    pub told: Told,
    pub plain: Plain,
}

// The reader before the first symbol.
#[tactic(auto, unfolding(crate::specs::Plain::fresh_plain))]
pub fn fresh(state: State) -> Plain
    ensures { result ≡ fresh_plain state }
{
    Plain {
        place: 0,
        running: false,
        run: kept::begun(0),
        state,
    }
}

// A run with one octet more. The first 53 stay, the last four move on, and the octet that leaves these is one that the FCS covers, if it stands
// behind the preamble.
#[tactic(auto, using(crate::proofs::Growth::shifted), unfolding(crate::specs::Plain::grown))]
fn grown(mut r: Run, o: u8) -> Run
    ensures { result ≡ grown r o }
{
    let at = usize::from(r.count);
    let last = r.last;
    if at < 53 {
        r.first[at] = o;
    }
    if PREAMBLE_SIZE + FCS_SIZE <= at {
        r.register = fcs::update(r.register, &[last[0]]);
    }
    r.last = [last[1], last[2], last[3], o];
    r.count = r.count.wrapping_add(1);
    r
}

// One symbol more: what is told at it, and the reader behind it.
#[tactic(auto, unfolding(crate::proofs::Opened::of_take_symbol))]
pub fn take_symbol(s: Settings, job: u8, table: &[u8; 128], p: Plain, octet: u8, mark: u8) -> Step
    ensures { result ≡ step s job (entries_of table.now) p (record { octet = octet; mark = mark }) }
{
    let mut next = p;
    let mut told = Told::Quiet;
    if let Err(x) = kept::check_symbol(s, job, table, p.place) {
        return Step {
            told: Told::Refused(x),
            plain: p,
        };
    }
    next.place = p.place + 1;
    let run = p.run;
    // a data symbol: the run grows
    if mark == 0 {
        next.run = grown(run, octet);
        return Step { told, plain: next };
    }
    // a control symbol: a run in progress has ended, and is answered for
    if p.running {
        let out = kept::outcome_of(s, job, table, run, octet);
        told = kept::told_of(s, job, table, run, out);
        next.state = kept::state_of(out, run, p.state);
    }
    // a new one begins, in progress if the symbol is a Start
    next.running = octet == 0xFB;
    next.run = kept::begun(p.place);
    Step { told, plain: next }
}
