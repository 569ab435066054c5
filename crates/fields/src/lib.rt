// The parts of a frame: octets and numbers in it, tags, the real field, and where data begins (document 01, "Frame"). Meaning: specs/.
// `f` is always a whole frame. An octet beyond its end counts as 0, so that every function has an answer for a frame of any size.
#![tactic(auto)]

ghost use Rattle.std.specs.Prelude.{◌≡◌, ◌+◌, ◌*◌, ◌≤◌, get_or, drop};
ghost use Rattle.line.specs.Limits.{most_symbols, tag_size};
ghost use Rattle.line.specs.Octets.{high_first_at};
ghost use Rattle.fields.specs.Tags.{is_tag_kind, tag_run, tag_count};
ghost use Rattle.fields.specs.Fields.{first_field};
ghost use Rattle.fields.specs.Places.{laid_out, layout_of};

use line::{MOST_TAGS, TAG_SIZE};

// How a frame is laid out.
#[derive(Clone, Copy)]
pub struct Layout {
    // how many tags stand before the real field
    pub tags: u8,
    // the real field
    pub field: u16,
    // where data begins
    pub place: usize,
}

// ---- numbers in a frame

// The octet at `i`; beyond the end 0.
pub fn octet(f: &[u8], i: usize) -> u8
    ensures { result ≡ get_or f.now i 0 }
{
    f.get(i).copied().unwrap_or(0)
}

// The number in two octets, high octet first.
#[tactic(auto, unfolding(line::specs::Octets::high_first_at))]
pub fn high_first(f: &[u8], at: usize) -> u16
    ensures { result ≡ high_first_at f.now at }
{
    if f.len() <= at {
        return 0;
    }
    // a sum: from_be_bytes of two octets with a test each compiles to more instructions
    u16::from(octet(f, at)) * 256 + u16::from(octet(f, at + 1))
}

// ---- tags, and where field and data stand

// Field 0x8100 or 0x88A8 means tagged.
#[tactic(auto, unfolding(crate::specs::Tags::is_tag_kind))]
pub fn is_tag_kind(field: u16) -> bool
    ensures { result ≡ is_tag_kind field }
{
    matches!(field, 0x8100 | 0x88A8)
}

// The field right after the addresses.
#[tactic(auto, unfolding(crate::specs::Fields::first_field))]
pub fn first_field(f: &[u8]) -> u16
    ensures { result ≡ first_field f.now }
{
    high_first(f, 12)
}

// How many tags stand from `at` on, of `most` at most: one tag followed by a shorter run. (The bound keeps `at + 4` from wrapping, and no more.)
#[tactic(auto, using(crate::proofs::Tags::run_over, crate::proofs::Tags::run_none, crate::proofs::Tags::run_more))]
fn tag_run(f: &[u8], at: usize, most: u8) -> u8
    requires { at + tag_size * most ≤ most_symbols }
    ensures { (result ≡ tag_run most (drop at f.now)) × (result ≤ most) }
{
    if most == 0 {
        return 0;
    }
    if is_tag_kind(high_first(f, at)) {
        1 + tag_run(f, at + TAG_SIZE, most - 1)
    } else {
        0
    }
}

// How many tags stand before the real field, eight at most. Most frames have none: that is one test, small enough to stand in each caller.
#[tactic(auto, unfolding(crate::specs::Tags::tag_count))]
pub fn tag_count(f: &[u8]) -> u8
    ensures { result ≡ tag_count f.now }
{
    if is_tag_kind(first_field(f)) {
        tag_run(f, 12, MOST_TAGS)
    } else {
        0
    }
}

// The layout of a frame with so many tags: field and data stand behind them.
#[tactic(auto, unfolding(crate::specs::Places::laid_out))]
pub fn laid_out(f: &[u8], tags: u8) -> Layout
    ensures { result ≡ laid_out tags f.now }
{
    let at = 12 + TAG_SIZE * usize::from(tags);
    let field = high_first(f, at);
    Layout {
        tags,
        field,
        place: at + 2,
    }
}

// The layout of a frame.
#[tactic(auto, using(crate::proofs::Places::laid_own))]
pub fn layout_of(f: &[u8]) -> Layout
    ensures { result ≡ layout_of f.now }
{
    laid_out(f, tag_count(f))
}
