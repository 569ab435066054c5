// What is sent is read back from behind damaged symbols (demand 3). Each frame of a capture is written by the sending calls,
// and the readings from place 0 and the walk are printed; tools/oracle/loopback.py works the expected lines out from the oracle's model.
#![tactic(auto)]

use receive::{Answer, Ended, Reading};
use send::Sending;
use station::{Address, Flow, Part, Port, Refusal, Settings, State};
use std::io;
use writing::{Client, Form, Kind, Tag};

// ---- the two stations

fn numbered(n: u8) -> Address {
    Address([2, 0, 0, 0, 0, n])
}

// Station 1 sends and station 2 reads, as job 0 with an empty table.
fn settings(n: u8) -> Settings {
    Settings {
        own: numbered(n),
        broadcast: true,
        promiscuous: false,
        checking: true,
        limit: 1518,
        flow: Flow::Off,
        passing: false,
    }
}

// With one tag or none.
fn client(count: u8, form: Form) -> Client {
    let tag = Tag {
        kind: Kind::Customer,
        control: 0x2005,
    };
    Client {
        dest: numbered(2),
        tags: [tag; 8],
        count,
        form,
        class: 0,
    }
}

// ---- a capture

#[derive(Drop)]
struct Capture {
    octets: [u8; 400],
    marks: [u8; 400],
}

impl Capture {
    // One data octet throughout.
    fn of(octet: u8) -> Capture {
        Capture {
            octets: [octet; 400],
            marks: [0; 400],
        }
    }

    // A frame from station 1 at a place, on this port and with this state; where it ended, and the state that it left.
    fn send(&mut self, port: Port, state: State, place: usize, c: Client, d: &[u8]) -> Sending {
        send::send_client(
            settings(1),
            state,
            port,
            &mut self.octets,
            &mut self.marks,
            place,
            c,
            d,
        )
    }

    // A frame at a place; the next place.
    fn sent(&mut self, place: usize, c: Client, d: &[u8]) -> usize {
        self.send(Port::Plain, station::fresh_state(), place, c, d)
            .place
    }

    fn idles(&mut self, place: usize, n: usize) -> Sending {
        send::fill_idle(
            station::fresh_state(),
            &mut self.octets,
            &mut self.marks,
            place,
            n,
        )
    }

    // A frame on the four-lane port, from where the one before ended and with the state that it left.
    fn on_lanes(&mut self, before: Sending, d: &[u8]) -> Sending {
        self.send(
            Port::FourLane,
            before.state,
            before.place,
            client(0, Form::ByLength),
            d,
        )
    }

    // One symbol is overwritten.
    fn damage(&mut self, at: usize, octet: u8, mark: u8) {
        if at < 400 {
            self.octets[at] = octet;
            self.marks[at] = mark;
        }
    }

    // The three frames, back to back: short in the length form, short in the type form, and tagged.
    fn three(&mut self, place: usize) -> usize {
        let a = self.sent(place, client(0, Form::ByLength), b"short");
        let b = self.sent(a, client(0, Form::ByType(0x0800)), b"a type, and padding");
        self.sent(
            b,
            client(1, Form::ByLength),
            b"tagged, and longer than what is padded to forty-six octets",
        )
    }
}

// ---- what is printed

// Status word, and length and check of the client data.
fn handed(rt: &impl Print, status: u64, part: Part, octets: &[u8]) -> io::Result<()> {
    let d = receive::client_data(octets, part);
    let sum = fcs::check(d);
    print!(rt; " status {status:010x} data {} sum {sum:08x}", d.len())
}

fn answer(rt: &impl Print, a: Answer, octets: &[u8]) -> io::Result<()> {
    match a {
        Answer::Refused(x) => {
            let k = station::refusal_number(x);
            print!(rt; " refused {k}")
        }
        Answer::Nothing => rt.write_all(b" none"),
        Answer::Open => rt.write_all(b" open"),
        Answer::Counted(o, status, part, _way) => {
            let k = station::outcome_number(o);
            print!(rt; " outcome {k}")?;
            handed(rt, status, part, octets)
        }
    }
}

fn reading_line(rt: &impl Print, name: &[u8], r: &Reading, octets: &[u8]) -> io::Result<()> {
    rt.write_all(name)?;
    rt.write_all(b":")?;
    answer(rt, r.answer, octets)?;
    println!(rt; " start {} next {}", r.start, r.next)
}

fn walk_answer(rt: &impl Print, a: Result<Ended, Refusal>) -> io::Result<()> {
    match a {
        Err(x) => print!(rt; " walk refused {}", station::refusal_number(x)),
        Ok(end) => print!(rt; " walk {} open {}", end.starts, u8::from(end.is_open)),
    }
}

fn walk_line(rt: &impl Print, name: &[u8], capture: &Capture) -> io::Result<()> {
    let none = table::empty();
    let end = receive::walk(
        settings(2),
        0,
        &none,
        station::fresh_state(),
        &capture.octets,
        &capture.marks,
    );
    rt.write_all(name)?;
    rt.write_all(b":")?;
    walk_answer(rt, end.answer)?;
    let counters = end.state.counters;
    println!(rt; " cut {} handed out {}", counters[0], counters[10])
}

// The readings from place 0 on, each at the next place of the one before, sixteen at most; and the walk.
fn every(rt: &impl Print, name: &[u8], capture: &Capture) -> io::Result<()> {
    let none = table::empty();
    let mut state = station::fresh_state();
    let mut at = 0;
    for _ in 0..16 {
        let r = receive::read(
            settings(2),
            0,
            &none,
            state,
            &capture.octets,
            &capture.marks,
            at,
        );
        reading_line(rt, name, &r, &capture.octets)?;
        if !matches!(r.answer, Answer::Counted(..)) {
            break;
        }
        state = r.state;
        at = r.next;
    }
    walk_line(rt, name, capture)
}

// ---- what stands before the frames

// Nothing but Idles.
fn clean(rt: &impl Print) -> io::Result<()> {
    let mut capture = Capture::of(0);
    let a = capture.idles(0, 9).place;
    let b = capture.three(a);
    capture.idles(b, 5);
    every(rt, b"clean", &capture)
}

// A frame that an Error cuts.
fn cut(rt: &impl Print) -> io::Result<()> {
    let mut capture = Capture::of(0);
    let a = capture.sent(0, client(0, Form::ByLength), b"cut");
    capture.damage(40, 0xFE, 1);
    capture.three(a);
    every(rt, b"cut frame", &capture)
}

// A frame with one octet turned.
fn turned(rt: &impl Print) -> io::Result<()> {
    let mut capture = Capture::of(0);
    let a = capture.sent(0, client(0, Form::ByLength), b"turned");
    capture.damage(30, 0x99, 0);
    capture.three(a);
    every(rt, b"turned octet", &capture)
}

// A frame that is overwritten from its middle on: its run ends at the Start of the next.
fn overrun(rt: &impl Print) -> io::Result<()> {
    let mut capture = Capture::of(0);
    capture.sent(0, client(0, Form::ByLength), b"overrun");
    capture.three(50);
    every(rt, b"open run", &capture)
}

// Data with no Start, a Start with a wrong preamble, and other controls.
fn noise(rt: &impl Print) -> io::Result<()> {
    let mut capture = Capture::of(0xFB);
    capture.damage(3, 0x9C, 1);
    capture.damage(5, 0xFB, 2);
    capture.damage(17, 0xFD, 255);
    capture.damage(20, 0xFB, 1);
    capture.three(25);
    every(rt, b"noise", &capture)
}

// A Start behind the last frame stays open.
fn open_behind(rt: &impl Print) -> io::Result<()> {
    let mut capture = Capture::of(0);
    let a = capture.three(0);
    capture.damage(a, 0xFB, 1);
    every(rt, b"open behind", &capture)
}

// Frames on the four-lane port, of which an Error cuts the first: gaps of 12, 11, 10 and 13.
fn four_lanes(rt: &impl Print) -> io::Result<()> {
    let mut capture = Capture::of(0);
    let start = capture.idles(0, 0);
    let a = capture.on_lanes(start, b"cut");
    capture.damage(40, 0xFE, 1);
    let b = capture.on_lanes(a, b"forty-seven octets: behind them a gap of eleven");
    let c = capture.on_lanes(b, b"forty-eight octets, and behind them a gap of ten");
    capture.on_lanes(c, b"forty-nine octets: behind them a gap of thirteen!");
    every(rt, b"four lanes", &capture)
}

fn main(rt: HostRuntime) -> io::Result<()> {
    clean(&rt)?;
    cut(&rt)?;
    turned(&rt)?;
    overrun(&rt)?;
    noise(&rt)?;
    open_behind(&rt)?;
    four_lanes(&rt)
}
