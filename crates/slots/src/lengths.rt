// How long 'iprp' is, from the record alone. `Bounded image` stands in each contract here, `Sound image source.now` in those of the writers: a struct
// with that as a ghost field proves too, but each use of the record then goes through the struct, which takes more text than the clause.
// Each length is a sum, an `if` or a choice as its slots are in groups.rt and slot.rt, and as its definition is.
ghost use Rattle.std.specs.Prelude.{◌≡◌, ◌+◌, ◌≤◌, length};
ghost use Rattle.std.specs.List.{sum_by};
ghost use Rattle.mini.specs.Cut.{sum};
ghost use Rattle.mini.specs.Same.{chunk_len};
ghost use Rattle.slots.specs.Lengths.{config_slot_len, prof_slot_len, turn_slot_len, tmap_nclx_slot_len, hdr_slot_len, if_there_len, main_lens, alpha_lens, orientation_lens, hdr_lens, gain_map_lens, tmap_lens, picture_len, tone_map_len, row_len, row_if_len, ipma_body_len, ipma_len, iprp_len};
ghost use Rattle.slots.specs.Slots.{has_alpha_item, has_gain_map_item};
ghost use Rattle.slots.specs.Sound.{Bounded};

use crate::associations::{ALPHA_ROW, GAIN_MAP_ROW, MAIN_ROW, TMAP_ROW, UsedSlots, used_slots};
use crate::groups::{
    UNUSED_AT_END, alpha_config, gain_map_config, has_alpha_item, has_gain_map_item, hdr_boxes,
};
use crate::slot::{FREE_LEN, has_tmap_nclx};
use boxes::BOX_HEADER_LEN;
use mini::{Chunk, MiniHdrBoxes, MinimizedImage, Span, TmapCicp};
use properties::hdr_boxes::HdrBox;
use properties::orientation::turns_of;
use properties::pixi::{ALPHA_PIXI_LEN, pixi_len};
use properties::property::{AUXC_LEN, ISPE_LEN, NCLX_LEN, TURN_LEN};

// How many bytes of a row of 'ipma' come before its associations.
const ROW_HEAD_LEN: usize = 3;

fn config_slot_len(config: Span) -> usize
    requires { config.len ≤ 4095 }
    ensures { (result ≡ config_slot_len config) × (result ≤ 4103) }
{
    BOX_HEADER_LEN + config.len
}

// A profile has its colour type before it.
fn prof_slot_len(icc: Chunk) -> usize
    requires { chunk_len icc ≤ 1048576 }
    ensures { (result ≡ prof_slot_len icc) × (result ≤ 1048588) }
{
    icc.map_or(FREE_LEN, |icc| BOX_HEADER_LEN + 4 + icc.len)
}

fn turn_slot_len(turn: Option<u8>) -> usize
    ensures { (result ≡ turn_slot_len turn) × (result ≤ 9) }
{
    turn.map_or(FREE_LEN, |_| TURN_LEN)
}

fn main_len(image: MinimizedImage) -> usize
    requires { Bounded image }
    ensures { (result ≡ sum (main_lens image)) × (result ≤ 1052752) }
{
    config_slot_len(image.main_codec_config)
        + ISPE_LEN
        + pixi_len(image.chroma)
        + NCLX_LEN
        + prof_slot_len(image.icc)
}

fn alpha_len(image: MinimizedImage) -> usize
    requires { Bounded image }
    ensures { (result ≡ if_there_len (has_alpha_item image) (alpha_lens image)) × (result ≤ 4175) }
{
    if has_alpha_item(image) {
        config_slot_len(alpha_config(image)) + AUXC_LEN + ALPHA_PIXI_LEN
    } else {
        3 * FREE_LEN
    }
}

fn orientation_len(image: MinimizedImage) -> usize
    requires { Bounded image }
    ensures { (result ≡ sum (orientation_lens image)) × (result ≤ 18) }
{
    let turns = turns_of(image.orientation);
    turn_slot_len(turns.angle) + turn_slot_len(turns.axis)
}

fn hdr_slot_len(held: Option<HdrBox>) -> usize
    ensures { (result ≡ hdr_slot_len held) × (result ≤ 45) }
{
    held.map_or(FREE_LEN, HdrBox::len)
}

fn hdr_boxes_len(boxes: &[Option<HdrBox>]) -> usize
    requires { sum_by hdr_slot_len boxes.now ≤ 153 }
    ensures { result ≡ sum_by hdr_slot_len boxes.now }
{
    boxes.iter().map(|held| hdr_slot_len(*held)).sum()
}

#[tactic(auto, using(crate::proofs::Laws::lens_summed, crate::specs::Bounds::hdr_most))]
fn hdr_len(h: MiniHdrBoxes) -> usize
    ensures { (result ≡ sum (hdr_lens h)) × (result ≤ 153) }
{
    hdr_boxes_len(&hdr_boxes(h))
}

fn gain_map_len(image: MinimizedImage) -> usize
    requires { Bounded image }
    ensures { (result ≡ if_there_len (has_gain_map_item image) (gain_map_lens image)) × (result ≤ 4164) }
{
    if has_gain_map_item(image) {
        config_slot_len(gain_map_config(image))
            + ISPE_LEN
            + pixi_len(image.gain_map.chroma)
            + NCLX_LEN
    } else {
        4 * FREE_LEN
    }
}

fn tmap_nclx_slot_len(cicp: Option<TmapCicp>, icc: Chunk) -> usize
    ensures { (result ≡ tmap_nclx_slot_len cicp icc) × (result ≤ 19) }
{
    if has_tmap_nclx(cicp, icc) {
        NCLX_LEN
    } else {
        FREE_LEN
    }
}

fn tmap_len(image: MinimizedImage) -> usize
    requires { Bounded image }
    ensures { (result ≡ if_there_len image.has_gain_map (tmap_lens image)) × (result ≤ 1048627) }
{
    if image.has_gain_map {
        ISPE_LEN
            + tmap_nclx_slot_len(image.gain_map.tmap_cicp, image.gain_map.tmap_icc)
            + prof_slot_len(image.gain_map.tmap_icc)
    } else {
        3 * FREE_LEN
    }
}

fn tmap_hdr_len(image: MinimizedImage) -> usize
    ensures { (result ≡ if_there_len image.has_gain_map (hdr_lens image.gain_map.tmap_hdr)) × (result ≤ 153) }
{
    if image.has_gain_map {
        hdr_len(image.gain_map.tmap_hdr)
    } else {
        6 * FREE_LEN
    }
}

fn picture_len(image: MinimizedImage) -> usize
    requires { Bounded image }
    ensures { (result ≡ picture_len image) × (result ≤ 1057098) }
{
    main_len(image) + alpha_len(image) + orientation_len(image) + hdr_len(image.hdr_boxes)
}

fn tone_map_len(image: MinimizedImage) -> usize
    requires { Bounded image }
    ensures { (result ≡ tone_map_len image) × (result ≤ 1052968) }
{
    gain_map_len(image) + tmap_len(image) + tmap_hdr_len(image) + UNUSED_AT_END * FREE_LEN
}

fn row_len(used: UsedSlots, row: &[u8]) -> usize
    requires { length row.now ≤ 255 }
    ensures { (result ≡ row_len used.0 row.now) × (result ≤ 258) }
{
    ROW_HEAD_LEN + used.count(row)
}

fn row_if_len(there: bool, used: UsedSlots, row: &[u8]) -> usize
    requires { length row.now ≤ 255 }
    ensures { (result ≡ row_if_len there used.0 row.now) × (result ≤ 258) }
{
    if there { row_len(used, row) } else { 0 }
}

#[tactic(auto, using(crate::proofs::Laws::rows))]
fn ipma_body_len(image: MinimizedImage, used: UsedSlots) -> usize
    ensures { result ≡ ipma_body_len image used.0 }
{
    // Version and flags, and the number of rows, come first.
    8 + row_len(used, &MAIN_ROW.associations)
        + row_if_len(has_alpha_item(image), used, &ALPHA_ROW.associations)
        + row_if_len(image.has_gain_map, used, &TMAP_ROW.associations)
        + row_if_len(has_gain_map_item(image), used, &GAIN_MAP_ROW.associations)
}

#[tactic(auto, using(crate::proofs::Laws::ipma_bounds))]
pub fn ipma_len(image: MinimizedImage) -> usize
    requires { Bounded image }
    ensures { (result ≡ ipma_len image) × (result ≤ 62) }
{
    BOX_HEADER_LEN + ipma_body_len(image, used_slots(image))
}

// How long the 32 slots are, without the header of 'ipco'.
pub fn ipco_body_len(image: MinimizedImage) -> usize
    requires { Bounded image }
    ensures { (result ≡ picture_len image + tone_map_len image) × (result ≤ 2110066) }
{
    picture_len(image) + tone_map_len(image)
}

// The length that `put_iprp` writes.
pub fn iprp_len(image: MinimizedImage) -> usize
    requires { Bounded image }
    ensures value { result ≡ iprp_len image }
    ensures upper_bound { result ≤ 2110144 }
{
    BOX_HEADER_LEN + (BOX_HEADER_LEN + ipco_body_len(image)) + ipma_len(image)
}
