// One slot of 'ipco': a property's box, or an empty 'free'. Which of them is said by a `match`: `map_or_else` takes two closures, of which only one
// could have the output lent.
ghost use Rattle.std.specs.Prelude.{◌≡◌, ◌||◌, not, is_some, ◌+◌, ◌*◌, ◌≤◌, ◌<◌, ltb, length, replicate};
ghost use Rattle.octets.specs.Overwrite.{Wrote};
ghost use Rattle.mini.specs.Same.{chunk_len, span_bytes};
ghost use Rattle.properties.specs.Property.{codec_config, turn_box};
ghost use Rattle.slots.specs.Lengths.{config_slot_len, prof_slot_len, turn_slot_len, tmap_nclx_slot_len, hdr_slot_len};
ghost use Rattle.slots.specs.Slots.{none, free, slot_bytes, only_if, prof_slot, turn_slot, tmap_nclx_slot, hdr_slot, slots_bytes};
ghost use Rattle.slots.specs.Sound.{SpanPlaced, ChunkPlaced};

use boxes::{FourCc, put_box_header};
use mini::{Chunk, Cicp, Span, TmapCicp};
use octets::part;
use properties::hdr_boxes::HdrBox;
use properties::property::{put_codec_config, put_nclx, put_prof, put_turn};

const FREE: FourCc = 0x66726565;

// How many bytes an unused slot takes.
pub const FREE_LEN: usize = 8;

// The tone map's colour where it is not told.
pub const SRGB: TmapCicp = TmapCicp {
    cicp: Cicp {
        primaries: 1,
        transfer: 13,
        matrix: 6,
    },
    full_range: true,
};

#[tactic(auto, using(crate::proofs::Laws::empty), unfolding(crate::specs::Slots::free, boxes::specs::Boxed::boxed))]
pub fn put_free(out: &mut [u8], at: usize) -> usize
    requires { at + 8 ≤ length out.old }
    ensures { Wrote out.old at 8 free out.new result }
{
    put_box_header(out, at, 0, FREE)
}

// So many unused slots.
#[tactic(auto, using(crate::proofs::Laws::unused_writes))]
pub fn put_unused(out: &mut [u8], at: usize, n: usize) -> usize
    requires { at + 8 * n ≤ length out.old }
    ensures { Wrote out.old at (8 * n) (slots_bytes (replicate n none)) out.new result }
{
    let mut next = at;
    for _ in 0..n {
        next = put_free(out, next);
    }
    next
}

// A codec configuration; none where it is empty.
#[tactic(auto, unfolding(octets::specs::Part::part_of))]
pub fn put_config_slot(
    out: &mut [u8],
    at: usize,
    box_type: FourCc,
    config: Span,
    source: &[u8],
) -> usize
    requires { (at + config_slot_len config ≤ length out.old) × (SpanPlaced config source.now × (config.len ≤ 4095)) }
    ensures { Wrote out.old at (config_slot_len config) (slot_bytes (only_if (ltb 0 config.len) (codec_config box_type (span_bytes config source.now)))) out.new result }
{
    if config.len == 0 {
        return put_free(out, at);
    }
    put_codec_config(out, at, box_type, part(source, config))
}

// An ICC profile.
#[tactic(auto, unfolding(octets::specs::Part::part_of))]
pub fn put_prof_slot(out: &mut [u8], at: usize, icc: Chunk, source: &[u8]) -> usize
    requires { (at + prof_slot_len icc ≤ length out.old) × (ChunkPlaced icc source.now × (chunk_len icc ≤ 1048576)) }
    ensures { Wrote out.old at (prof_slot_len icc) (slot_bytes (prof_slot icc source.now)) out.new result }
{
    match icc {
        Some(icc) => put_prof(out, at, part(source, icc)),
        None => put_free(out, at),
    }
}

// 'irot' or 'imir'.
pub fn put_turn_slot(out: &mut [u8], at: usize, box_type: FourCc, turn: Option<u8>) -> usize
    requires { at + turn_slot_len turn ≤ length out.old }
    ensures { Wrote out.old at (turn_slot_len turn) (slot_bytes (turn_slot (turn_box box_type) turn)) out.new result }
{
    match turn {
        Some(turn) => put_turn(out, at, box_type, turn),
        None => put_free(out, at),
    }
}

// Whether the tone map has a colour slot: its colour is told, or there is no profile. The two are parameters, here and below, as in the definitions:
// of a whole gain map more would be asked.
pub fn has_tmap_nclx(cicp: Option<TmapCicp>, icc: Chunk) -> bool
    ensures { result ≡ (is_some cicp || not (is_some icc)) }
{
    cicp.is_some() || icc.is_none()
}

// The tone map's colour, told or sRGB.
pub fn put_tmap_nclx_slot(out: &mut [u8], at: usize, cicp: Option<TmapCicp>, icc: Chunk) -> usize
    requires { at + tmap_nclx_slot_len cicp icc ≤ length out.old }
    ensures { Wrote out.old at (tmap_nclx_slot_len cicp icc) (slot_bytes (tmap_nclx_slot cicp icc)) out.new result }
{
    if !has_tmap_nclx(cicp, icc) {
        return put_free(out, at);
    }
    let TmapCicp { cicp, full_range } = cicp.unwrap_or(SRGB);
    put_nclx(out, at, cicp, full_range)
}

// An HDR box, where the record holds it.
pub fn put_hdr_slot(out: &mut [u8], at: usize, held: Option<HdrBox>) -> usize
    requires { at + hdr_slot_len held ≤ length out.old }
    ensures { Wrote out.old at (hdr_slot_len held) (slot_bytes (hdr_slot held)) out.new result }
{
    match held {
        Some(held) => held.put(out, at),
        None => put_free(out, at),
    }
}
