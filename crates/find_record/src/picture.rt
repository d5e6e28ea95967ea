// What the slots say of the pictures, beside where their chunks lie.
ghost use Rattle.std.specs.Prelude.{◌≡◌, ◌+◌, ◌≤◌, ◌<◌};
ghost use Rattle.carried.specs.ReadFile.{slots_in};
ghost use Rattle.normal_form.specs.NormalForm.{has_body};
ghost use Rattle.normal_form.specs.ReadProperties.{slot_at, turn_in, orientation_of, profile_in, hdr_in};
ghost use Rattle.normal_form.specs.ReadRecord.{config_type_in, triple_in, tone_in};

use crate::bodies::{after_flags, chroma_in, cicp_in, orientation_of, padded, range_in};
use crate::ipco::{is_slot_used, slot_body, slot_type};
use crate::numbers::byte;
use boxes::FourCc;
use mini::{Cicp, MiniHdrBoxes, TmapCicp, table_cicp};
use slots::slot::SRGB;

// The type of the first configuration there is.
pub fn config_type_in(ipco: &[u8]) -> FourCc
    ensures { result ≡ config_type_in (slots_in ipco.now) }
{
    if is_slot_used(ipco, 1) {
        slot_type(ipco, 1)
    } else if is_slot_used(ipco, 6) {
        slot_type(ipco, 6)
    } else {
        slot_type(ipco, 17)
    }
}

// The colour triple, absent if it is the inferred one.
pub fn triple_in(ipco: &[u8]) -> Option<Cicp>
    ensures { result ≡ triple_in (slots_in ipco.now) }
{
    let told = cicp_in(slot_body(ipco, 4));
    let inferred = table_cicp(is_slot_used(ipco, 5), chroma_in(slot_body(ipco, 3)));
    (told != inferred).then_some(told)
}

// A tone map's colours, absent if they are those of sRGB and stand beside no profile.
pub fn tone_in(ipco: &[u8]) -> Option<TmapCicp>
    ensures { let l = slots_in ipco.now in result ≡ tone_in (slot_at 22 l) (profile_in (slot_at 23 l)) }
{
    let body = slot_body(ipco, 22);
    let told = TmapCicp {
        cicp: cicp_in(body),
        full_range: range_in(body),
    };
    let needed = is_slot_used(ipco, 23) | (told != SRGB);
    (is_slot_used(ipco, 22) & needed).then_some(told)
}

#[tactic(auto, using(crate::proofs::SlotProperties::turn_is))]
fn turn_in(ipco: &[u8], k: usize) -> Option<u8>
    ensures { result ≡ turn_in (slot_at k (slots_in ipco.now)) }
{
    is_slot_used(ipco, k).then_some(byte(slot_body(ipco, k), 0))
}

pub fn orientation_in(ipco: &[u8]) -> u8
    ensures { let l = slots_in ipco.now in result ≡ orientation_of (turn_in (slot_at 9 l)) (turn_in (slot_at 10 l)) }
{
    orientation_of(turn_in(ipco, 9), turn_in(ipco, 10))
}

// The HDR bodies of the six slots from `first` on. 'reve' and 'ndwt' are full boxes.
pub fn hdr_in(ipco: &[u8], first: usize) -> MiniHdrBoxes
    requires { first < 32 }
    ensures { let l = slots_in ipco.now in result ≡ hdr_in (slot_at first l) (slot_at (first + 1) l) (slot_at (first + 2) l) (slot_at (first + 3) l) (slot_at (first + 4) l) (slot_at (first + 5) l) }
{
    MiniHdrBoxes {
        has_clli: is_slot_used(ipco, first),
        has_mdcv: is_slot_used(ipco, first + 1),
        has_cclv: is_slot_used(ipco, first + 2),
        has_amve: is_slot_used(ipco, first + 3),
        has_reve: is_slot_used(ipco, first + 4),
        has_ndwt: is_slot_used(ipco, first + 5),
        clli: padded(slot_body(ipco, first)),
        mdcv: padded(slot_body(ipco, first + 1)),
        cclv: padded(slot_body(ipco, first + 2)),
        amve: padded(slot_body(ipco, first + 3)),
        reve: padded(after_flags(slot_body(ipco, first + 4))),
        ndwt: padded(after_flags(slot_body(ipco, first + 5))),
    }
}

// Whether there is one.
pub fn has_body(h: MiniHdrBoxes) -> bool
    ensures { result ≡ has_body h }
{
    h.has_clli | h.has_mdcv | h.has_cclv | h.has_amve | h.has_reve | h.has_ndwt
}
