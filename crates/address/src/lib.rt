// Whom a frame is for: its destination compared with an address and with broadcast (document 01, "Address rule"). Meaning: specs/.
// `f` is always a whole frame. One too short to have a destination is for nobody.
#![tactic(auto)]

ghost use Rattle.std.specs.Prelude.{◌≡◌};
ghost use Rattle.line.specs.Octets.{same_octets};
ghost use Rattle.fields.specs.Fields.{destination};
ghost use Rattle.address.specs.Address.{broadcast_address};

use station::Address;

// Whether the frame's destination is `a`, all six octets: the last one first, since stations of one maker share the others.
#[tactic(auto, using(crate::proofs::Address::to_short, crate::proofs::Address::to_differs, crate::proofs::Address::to_same))]
pub fn to(f: &[u8], a: Address) -> bool
    ensures { result ≡ same_octets (destination f.now) a.0 }
{
    if f.len() < 6 {
        return false;
    }
    for k in (0..6).rev() {
        if f[k] != a.0[k] {
            return false;
        }
    }
    true
}

// Broadcast is all ones.
#[tactic(auto, unfolding(crate::specs::Address::broadcast_address))]
pub fn is_broadcast(f: &[u8]) -> bool
    ensures { result ≡ same_octets (destination f.now) broadcast_address }
{
    to(f, Address([0xFFu8; 6]))
}
