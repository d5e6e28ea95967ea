// The slots of 'ipco', numbered from 1 on, in its body.
ghost use Rattle.std.specs.Prelude.{◌≡◌, ◌+◌, ◌≤◌, length};
ghost use Rattle.slots.specs.Slots.{is_used};
ghost use Rattle.carried.specs.ReadFile.{slots_in};
ghost use Rattle.normal_form.specs.ReadProperties.{slot_at, type_in, body_at};
ghost use Rattle.found.specs.Places.{slot_header};

use crate::walk::nth_box;
use boxes::{BoxHeader, FourCc, payload};

// Past the last one the blank header.
pub fn slot(ipco: &[u8], k: usize) -> BoxHeader
    ensures value { result ≡ slot_header ipco.now k }
    ensures within { result.payload_start + result.payload_len ≤ length ipco.now }
{
    nth_box(ipco, 0, k.saturating_sub(1))
}

#[tactic(auto, using(crate::proofs::SlotLaws::slot_body))]
pub fn slot_body(ipco: &[u8], k: usize) -> &[u8]
    ensures { result.now ≡ body_at k (slots_in ipco.entry.now) }
{
    payload(ipco, slot(ipco, k))
}

// A slot is used if its body is not empty, whatever its type.
#[tactic(auto, using(crate::proofs::SlotLaws::slot_used))]
pub fn is_slot_used(ipco: &[u8], k: usize) -> bool
    ensures { result ≡ is_used (slot_at k (slots_in ipco.now)) }
{
    slot(ipco, k).payload_len != 0
}

#[tactic(auto, using(crate::proofs::SlotLaws::slot_type))]
pub fn slot_type(ipco: &[u8], k: usize) -> FourCc
    ensures { result ≡ type_in (slot_at k (slots_in ipco.now)) }
{
    let header = slot(ipco, k);
    if header.payload_len == 0 {
        0
    } else {
        header.box_type
    }
}
