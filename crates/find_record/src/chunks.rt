// Where the chunks lie whose bytes are in slots: in the file, of which the body of 'ipco' begins at `at`. An empty chunk lies at 0.
ghost use Rattle.std.specs.Prelude.{◌≡◌, ◌+◌, ◌-◌, ◌≤◌, ◌<◌, ◌^◌, length};
ghost use Rattle.carried.specs.ReadFile.{slots_in};
ghost use Rattle.mini.specs.Chunks.{chunk_if};
ghost use Rattle.found.specs.Found.{placed_span, placed_chunk};
ghost use Rattle.found.specs.Places.{slot_header};
ghost use Rattle.normal_form.specs.ReadProperties.{slot_at, body_at, span_of, profile_in, config_in};

use crate::ipco::{is_slot_used, slot, slot_body};
use crate::numbers::same_bytes;
use mini::Chunk;
use octets::Span;

// What follows the first n bytes of a part.
pub fn placed_after(part: Span, n: usize) -> Span
    requires { part.at + part.len < 2 ^ 64 }
    ensures { result ≡ placed_span (part.at + n) (span_of (part.len - n)) }
{
    if part.len <= n {
        return Span::default();
    }
    Span {
        at: part.at + n,
        len: part.len - n,
    }
}

pub fn placed(part: Span) -> Span
    ensures { result ≡ placed_span part.at (span_of part.len) }
{
    if part.len == 0 { Span::default() } else { part }
}

// An item's bytes.
pub fn item_chunk(there: bool, part: Span) -> Chunk
    ensures { result ≡ placed_chunk part.at (chunk_if there (span_of part.len)) }
{
    there.then_some(placed(part))
}

// A slot's body.
#[tactic(auto, using(crate::proofs::SlotLaws::slot_body_len))]
fn slot_span(ipco: &[u8], at: usize, k: usize) -> Span
    requires { at + length ipco.now < 2 ^ 64 }
    ensures value { result ≡ record { at = at + (slot_header ipco.now k).payload_start; len = length (body_at k (slots_in ipco.now)) } }
    ensures within { result.at + result.len < 2 ^ 64 }
{
    let header = slot(ipco, k);
    Span {
        at: at + header.payload_start,
        len: header.payload_len,
    }
}

// The main picture's configuration.
pub fn main_config(ipco: &[u8], at: usize) -> Span
    requires { at + length ipco.now < 2 ^ 64 }
    ensures { result ≡ placed_span (at + (slot_header ipco.now 1).payload_start) (span_of (length (body_at 1 (slots_in ipco.now)))) }
{
    placed(slot_span(ipco, at, 1))
}

// A configuration of alpha or of the gain map: absent if it has the main one's bytes.
pub fn config_in(ipco: &[u8], at: usize, k: usize) -> Chunk
    requires { at + length ipco.now < 2 ^ 64 }
    ensures { let l = slots_in ipco.now in result ≡ placed_chunk (at + (slot_header ipco.now k).payload_start) (config_in (slot_at k l) (body_at 1 l)) }
{
    let own = is_slot_used(ipco, k) & !same_bytes(slot_body(ipco, k), slot_body(ipco, 1));
    own.then_some(placed(slot_span(ipco, at, k)))
}

// A profile, which follows its type.
pub fn profile_in(ipco: &[u8], at: usize, k: usize) -> Chunk
    requires { at + length ipco.now < 2 ^ 64 }
    ensures { result ≡ placed_chunk (at + (slot_header ipco.now k).payload_start + 4) (profile_in (slot_at k (slots_in ipco.now))) }
{
    is_slot_used(ipco, k).then_some(placed_after(slot_span(ipco, at, k), 4))
}
