// What a station is set to, what it counts and times, and the names of outcomes and refusals (document 01).
// Struct fields have no underscore, so that the definitions read them with no quotes; what each stands for is said beside it.
#![tactic(auto)]

ghost use Rattle.std.specs.Prelude.{◌≡◌};
ghost use Rattle.station.specs.Numbers.{outcome_number, refusal_number};
ghost use Rattle.station.specs.Station.{bad_settings, bad_buffers, bad_place, bad_start, high_deficit, counted, fresh, screen_of, is_pause_mode, is_pfc_mode};

use line::{LANES, LEAST_LIMIT, MOST_DEFICIT, MOST_LIMIT, MOST_SYMBOLS};

// Six octets.
#[derive(Clone, Copy, Debug, PartialEq, Eq)]
pub struct Address(pub [u8; 6]);

// "Flow mode is none, `pause` or `PFC`."
#[derive(Clone, Copy, Debug, PartialEq, Eq)]
pub enum Flow {
    Off,
    Pause,
    Pfc,
}

#[derive(Clone, Copy, Debug, PartialEq, Eq)]
pub struct Settings {
    pub own: Address,
    pub broadcast: bool,
    pub promiscuous: bool,
    // lengths are checked
    pub checking: bool,
    // M
    pub limit: u16,
    pub flow: Flow,
    // `pass control`
    pub passing: bool,
}

// A count of quanta never stands where a count of slots does: two types, and one conversion (flow).
#[derive(Clone, Copy, Debug, PartialEq, Eq)]
pub struct Quanta(pub u16);

#[derive(Clone, Copy, Debug, PartialEq, Eq)]
pub struct Slots(pub u32);

// The port that a frame is sent on: a plain one, or the four-lane port of document 02, item 5, which "accepts Start only at places divisible by four".
#[derive(Clone, Copy, Debug, PartialEq, Eq)]
pub enum Port {
    Plain,
    FourLane,
}

#[derive(Clone, Copy, Debug, PartialEq, Eq)]
pub struct State {
    // in the order of the outcomes
    pub counters: [u64; 11],
    // one for each class
    pub timers: [Slots; 8],
    // the deficit count of the four-lane port: how many symbols its gaps are short of 12 each, 3 at most (above 3: refusal 19)
    pub deficit: u64,
}

// Outcomes 1 to 11, in their order.
#[derive(Clone, Copy, Debug, PartialEq, Eq)]
pub enum Outcome {
    Cut,
    BadPreamble,
    Undersized,
    Oversized,
    WrongFcs,
    WrongLength,
    Filtered,
    PauseTaken,
    PfcTaken,
    ControlDropped,
    HandedOut,
}

// Refusals by number, 1 to 10 and 14 to 22; their place among the tests is the affair of each call's table.
#[derive(Clone, Copy, Debug, PartialEq, Eq)]
pub enum Refusal {
    BadSettings,
    BadBuffers,
    BadPlace,
    OtherFlow,
    BadClass,
    BadType,
    LongData,
    NoRoom,
    Held,
    ManyTags,
    BadJob,
    HoldsTwelve,
    AllInUse,
    AlreadyListed,
    NotListed,
    HighDeficit,
    BadTable,
    WrongTotals,
    HighTotal,
}

// A part of the captured octets: from place `at` on, `len` of them.
#[derive(Clone, Copy, Debug, PartialEq, Eq)]
pub struct Part {
    pub at: usize,
    pub len: usize,
}

// Refusal 1.
pub fn bad_settings(s: Settings) -> bool
    ensures { result ≡ bad_settings s }
{
    let own = s.own;
    let octets = own.0;
    let lead = octets[0];
    if lead % 2 == 1 {
        return true;
    }
    if s.limit < LEAST_LIMIT {
        return true;
    }
    MOST_LIMIT < s.limit
}

// A fresh state is all zeros.
pub fn fresh_state() -> State
    ensures { result ≡ fresh }
{
    State {
        counters: [0u64; 11],
        timers: [Slots(0); 8],
        deficit: 0,
    }
}

// Document 01's number of an outcome. A function of that name and no `From`, which would not say which number of an outcome it is.
pub fn outcome_number(o: Outcome) -> u8
    ensures { result ≡ outcome_number o }
{
    match o {
        Outcome::Cut => 1,
        Outcome::BadPreamble => 2,
        Outcome::Undersized => 3,
        Outcome::Oversized => 4,
        Outcome::WrongFcs => 5,
        Outcome::WrongLength => 6,
        Outcome::Filtered => 7,
        Outcome::PauseTaken => 8,
        Outcome::PfcTaken => 9,
        Outcome::ControlDropped => 10,
        Outcome::HandedOut => 11,
    }
}

// Document 01's number of a refusal, likewise.
pub fn refusal_number(r: Refusal) -> u8
    ensures { result ≡ refusal_number r }
{
    match r {
        Refusal::BadSettings => 1,
        Refusal::BadBuffers => 2,
        Refusal::BadPlace => 3,
        Refusal::OtherFlow => 4,
        Refusal::BadClass => 5,
        Refusal::BadType => 6,
        Refusal::LongData => 7,
        Refusal::NoRoom => 8,
        Refusal::Held => 9,
        Refusal::ManyTags => 10,
        Refusal::BadJob => 14,
        Refusal::HoldsTwelve => 15,
        Refusal::AllInUse => 16,
        Refusal::AlreadyListed => 17,
        Refusal::NotListed => 18,
        Refusal::HighDeficit => 19,
        Refusal::BadTable => 20,
        Refusal::WrongTotals => 21,
        Refusal::HighTotal => 22,
    }
}

// Counts an outcome: its counter goes up by one and rolls over to zero. The counters stay where they are: a walk that copied them for each Start
// would take three times as long over Starts alone.
pub fn count(o: Outcome, counters: &mut [u64; 11])
    ensures { counters.new ≡ counted o counters.old }
{
    let i = (outcome_number(o) - 1) as usize;
    let n = counters[i];
    counters[i] = n.wrapping_add(1);
}

// The 32-bit values that the management screen shows: of each counter the remainder.
pub fn screen(counters: [u64; 11]) -> [u32; 11]
    ensures { result ≡ screen_of counters }
{
    let mut shown = [0u32; 11];
    for k in 0..11 {
        shown[k] = (counters[k] % 4294967296) as u32;
    }
    shown
}

// Refusal 2.
pub fn bad_buffers(octets: &[u8], marks: &[u8]) -> bool
    ensures { result ≡ bad_buffers octets.now marks.now }
{
    if octets.len() != marks.len() {
        return true;
    }
    MOST_SYMBOLS < octets.len()
}

// Refusal 3.
pub fn bad_place(octets: &[u8], place: usize) -> bool
    ensures { result ≡ bad_place octets.now place }
{
    octets.len() < place
}

// Refusal 3 of a frame: also, on the four-lane port, a place not divisible by four.
pub fn bad_start(port: Port, octets: &[u8], place: usize) -> bool
    ensures { result ≡ bad_start port octets.now place }
{
    if bad_place(octets, place) {
        return true;
    }
    let Port::FourLane = port else {
        return false;
    };
    place % LANES != 0
}

// Refusal 19.
pub fn high_deficit(port: Port, deficit: u64) -> bool
    ensures { result ≡ high_deficit port deficit }
{
    let Port::FourLane = port else {
        return false;
    };
    MOST_DEFICIT < deficit
}

// Whether the flow mode is `pause`.
pub fn is_pause_mode(flow: Flow) -> bool
    ensures { result ≡ is_pause_mode flow }
{
    flow == Flow::Pause
}

// Whether the flow mode is `PFC`.
pub fn is_pfc_mode(flow: Flow) -> bool
    ensures { result ≡ is_pfc_mode flow }
{
    flow == Flow::Pfc
}
