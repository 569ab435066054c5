// Control frames, rules 7 to 10 (document 01, "Control frames"), and which address let a frame in (document 02, items 7 and 10). Meaning: specs/. `f` is
// always a whole frame, `table` the address table, of which a job sees its own entries.
#![tactic(auto)]

ghost use Rattle.std.specs.Prelude.{◌≡◌, ◌&&◌, ◌||◌};
ghost use Rattle.table.specs.Entries.{own_entries};
ghost use Rattle.control.specs.Control.{is_control_frame, opcode, to_reserved_group, to_own, filtered, takes_pause, takes_pfc, drops_control, frame_way};
ghost use Rattle.control.specs.Control.{way_carried};

use station::{Address, Outcome, Settings};

// First field 0x8808. A tagged 0x8808 is an ordinary type.
#[tactic(auto, unfolding(crate::specs::Control::is_control_frame))]
pub fn is_control_frame(f: &[u8]) -> bool
    ensures { result ≡ is_control_frame f.now }
{
    fields::first_field(f) == 0x8808
}

// The opcode of a control frame.
#[tactic(auto, unfolding(crate::specs::Control::opcode))]
pub fn opcode(f: &[u8]) -> u16
    ensures { result ≡ opcode f.now }
{
    fields::high_first(f, 14)
}

// Whether the destination is the reserved group, 01-80-C2-00-00-01.
#[tactic(auto, unfolding(crate::specs::Control::to_reserved_group, crate::specs::Control::reserved_group))]
pub fn to_reserved_group(f: &[u8]) -> bool
    ensures { result ≡ to_reserved_group f.now }
{
    address::to(f, Address([0x01, 0x80, 0xC2, 0x00, 0x00, 0x01]))
}

// Whether a frame is a control frame to the reserved group or the own address.
#[tactic(auto, unfolding(crate::specs::Control::to_own))]
fn controls_station(s: Settings, f: &[u8]) -> bool
    ensures { result ≡ (is_control_frame f.now && (to_reserved_group f.now || to_own s f.now)) }
{
    is_control_frame(f) && (to_reserved_group(f) || address::to(f, s.own))
}

// Rule 7. The address of a control frame to the reserved group or the own address is not tested further.
#[tactic(auto, unfolding(crate::specs::Control::filtered))]
pub fn filtered(s: Settings, job: u8, table: &[u8; 128], f: &[u8]) -> bool
    ensures { result ≡ filtered s (own_entries job table.now) f.now }
{
    !controls_station(s, f) && !table::accepts(s, job, table, f)
}

// Rule 8.
#[tactic(auto, unfolding(crate::specs::Control::takes_pause))]
pub fn takes_pause(s: Settings, f: &[u8]) -> bool
    ensures { result ≡ takes_pause s f.now }
{
    controls_station(s, f) && opcode(f) == 0x0001 && station::is_pause_mode(s.flow)
}

// Rule 9.
#[tactic(auto, unfolding(crate::specs::Control::takes_pfc))]
pub fn takes_pfc(s: Settings, f: &[u8]) -> bool
    ensures { result ≡ takes_pfc s f.now }
{
    controls_group(f) && opcode(f) == 0x0101 && station::is_pfc_mode(s.flow)
}

// Rule 10.
#[tactic(auto, unfolding(crate::specs::Control::drops_control))]
pub fn drops_control(s: Settings, f: &[u8]) -> bool
    ensures { result ≡ drops_control s f.now }
{
    is_control_frame(f) && !s.passing
}

// Whether a frame is a control frame to the reserved group.
fn controls_group(f: &[u8]) -> bool
    ensures { result ≡ (is_control_frame f.now && to_reserved_group f.now) }
{
    is_control_frame(f) && to_reserved_group(f)
}

// Which address lets a frame in, of any frame: 8 for a control frame to the reserved group.
#[tactic(auto, unfolding(crate::specs::Control::frame_way))]
pub fn frame_way(s: Settings, job: u8, table: &[u8; 128], f: &[u8]) -> u8
    ensures { result ≡ frame_way s (own_entries job table.now) f.now }
{
    if controls_group(f) {
        8
    } else {
        table::way(s, job, table, f)
    }
}

// The number that a reading with this outcome carries: 0 for outcomes 1 to 7.
#[tactic(auto, unfolding(crate::specs::Control::way_carried, station::specs::Numbers::by_outcome))]
pub fn way_carried(s: Settings, job: u8, table: &[u8; 128], o: Outcome, f: &[u8]) -> u8
    ensures { result ≡ way_carried s (own_entries job table.now) o f.now }
{
    match o {
        Outcome::PauseTaken | Outcome::PfcTaken | Outcome::ControlDropped | Outcome::HandedOut =>
            frame_way(s, job, table, f),
        _ => 0,
    }
}
