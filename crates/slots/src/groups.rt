// The slots of 'ipco' in their groups, and the box.
ghost use Rattle.std.specs.Prelude.{◌≡◌, ◌+◌, ◌≤◌, ◌<◌, length, map};
ghost use Rattle.std.specs.List.{sum_by};
ghost use Rattle.octets.specs.Overwrite.{Wrote};
ghost use Rattle.mini.specs.Cut.{sum};
ghost use Rattle.slots.specs.Lengths.{hdr_slot_len, if_there_len, main_lens, alpha_lens, orientation_lens, hdr_lens, gain_map_lens, tmap_lens, picture_len, tone_map_len, ipco_len};
ghost use Rattle.slots.specs.Slots.{has_alpha_item, has_gain_map_item, config_type, alpha_config, gain_map_config, if_there, hdr_slot, hdr_boxes, main_slots, alpha_slots, orientation_slots, hdr_slots, gain_map_slots, tmap_slots, picture_slots, tone_map_slots, slots, slots_bytes, ipco};
ghost use Rattle.slots.specs.Sound.{Bounded, Sound};

use crate::slot::{
    put_config_slot, put_hdr_slot, put_prof_slot, put_tmap_nclx_slot, put_turn_slot, put_unused,
};
use boxes::{FourCc, put_boxed};
use mini::{Cicp, CodecTypes, MiniHdrBoxes, MinimizedImage, Size, Span};
use properties::hdr_boxes::HdrBox;
use properties::orientation::turns_of;
use properties::pixi::{put_alpha_pixi, put_pixi};
use properties::property::{IMIR, IROT, put_auxc, put_ispe, put_nclx};

pub const IPCO: FourCc = 0x6970636F;

// The slots 30 to 32 have no property.
pub const UNUSED_AT_END: usize = 3;

// Whether there is an alpha item.
pub fn has_alpha_item(image: MinimizedImage) -> bool
    ensures { result ≡ has_alpha_item image }
{
    0 < image.alpha_data.len
}

pub fn has_gain_map_item(image: MinimizedImage) -> bool
    ensures { result ≡ has_gain_map_item image }
{
    image.has_gain_map && 0 < image.gain_map.data.len
}

// The type of the codec configurations' boxes.
pub fn config_type(types: Option<CodecTypes>) -> FourCc
    ensures { result ≡ config_type types }
{
    types.map_or(0, |types| types.codec_config_type)
}

// The configuration of alpha: its own, else the main picture's. One function for alpha and gain map would only be `unwrap_or` under another name.
pub fn alpha_config(image: MinimizedImage) -> Span
    ensures { result ≡ alpha_config image }
{
    image.alpha_codec_config.unwrap_or(image.main_codec_config)
}

// The configuration of the gain map, likewise.
pub fn gain_map_config(image: MinimizedImage) -> Span
    ensures { result ≡ gain_map_config image }
{
    let own = image.gain_map.codec_config;
    own.unwrap_or(image.main_codec_config)
}

// 1 to 5.
#[tactic(auto, using(crate::proofs::Laws::slot_writes), unfolding(crate::specs::Slots::main_slots, crate::specs::Slots::slots_bytes))]
fn put_main_slots(out: &mut [u8], at: usize, image: MinimizedImage, source: &[u8]) -> usize
    requires { (at + sum (main_lens image) ≤ length out.old) × Sound image source.now }
    ensures { Wrote out.old at (sum (main_lens image)) (slots_bytes (main_slots image source.now)) out.new result }
{
    let size = Size {
        width: image.width,
        height: image.height,
    };
    let box_type = config_type(image.explicit_codec_types);
    let at = put_config_slot(out, at, box_type, image.main_codec_config, source);
    let at = put_ispe(out, at, size);
    let at = put_pixi(out, at, image.format, image.chroma);
    let at = put_nclx(out, at, image.cicp(), image.full_range);
    put_prof_slot(out, at, image.icc, source)
}

#[tactic(auto, using(crate::proofs::Laws::slot_writes), unfolding(crate::specs::Slots::alpha_slots, crate::specs::Slots::slots_bytes))]
fn put_alpha_item_slots(out: &mut [u8], at: usize, image: MinimizedImage, source: &[u8]) -> usize
    requires { (at + sum (alpha_lens image) ≤ length out.old) × Sound image source.now }
    ensures { Wrote out.old at (sum (alpha_lens image)) (slots_bytes (alpha_slots image source.now)) out.new result }
{
    let box_type = config_type(image.explicit_codec_types);
    let at = put_config_slot(out, at, box_type, alpha_config(image), source);
    let at = put_auxc(out, at);
    put_alpha_pixi(out, at, image.format)
}

// 6 to 8. Here, below and in associations.rt an `if` says what is left out: one function for all would take a closure (`len_if`, items).
#[tactic(auto, unfolding(crate::specs::Slots::alpha_slots))]
fn put_alpha_slots(out: &mut [u8], at: usize, image: MinimizedImage, source: &[u8]) -> usize
    requires { (at + if_there_len (has_alpha_item image) (alpha_lens image) ≤ length out.old) × Sound image source.now }
    ensures { Wrote out.old at (if_there_len (has_alpha_item image) (alpha_lens image)) (slots_bytes (if_there (has_alpha_item image) (alpha_slots image source.now))) out.new result }
{
    if has_alpha_item(image) {
        put_alpha_item_slots(out, at, image, source)
    } else {
        put_unused(out, at, 3)
    }
}

// 9 and 10.
#[tactic(auto, using(crate::proofs::Laws::slot_writes), unfolding(crate::specs::Slots::orientation_slots, crate::specs::Slots::slots_bytes, properties::specs::Property::irot, properties::specs::Property::imir))]
fn put_orientation_slots(out: &mut [u8], at: usize, image: MinimizedImage) -> usize
    requires { (at + sum (orientation_lens image) ≤ length out.old) × Bounded image }
    ensures { Wrote out.old at (sum (orientation_lens image)) (slots_bytes (orientation_slots image)) out.new result }
{
    let turns = turns_of(image.orientation);
    let at = put_turn_slot(out, at, IROT, turns.angle);
    put_turn_slot(out, at, IMIR, turns.axis)
}

// The HDR boxes that the record holds, in the order of their slots.
pub fn hdr_boxes(h: MiniHdrBoxes) -> [Option<HdrBox>; 6]
    ensures { result ≡ hdr_boxes h }
{
    [
        h.has_clli.then_some(HdrBox::Clli(h.clli)),
        h.has_mdcv.then_some(HdrBox::Mdcv(h.mdcv)),
        h.has_cclv.then_some(HdrBox::Cclv(h.cclv)),
        h.has_amve.then_some(HdrBox::Amve(h.amve)),
        h.has_reve.then_some(HdrBox::Reve(h.reve)),
        h.has_ndwt.then_some(HdrBox::Ndwt(h.ndwt)),
    ]
}

#[tactic(auto, using(crate::proofs::Laws::hdr_writes))]
fn put_hdr_boxes(out: &mut [u8], at: usize, boxes: &[Option<HdrBox>]) -> usize
    requires { at + sum_by hdr_slot_len boxes.now ≤ length out.old }
    ensures { Wrote out.old at (sum_by hdr_slot_len boxes.now) (slots_bytes (map hdr_slot boxes.now)) out.new result }
{
    let mut next = at;
    for &held in boxes {
        next = put_hdr_slot(out, next, held);
    }
    next
}

// 11 to 16, or 24 to 29.
#[tactic(auto, using(crate::proofs::Laws::lens_summed), unfolding(crate::specs::Slots::hdr_slots))]
fn put_hdr_slots(out: &mut [u8], at: usize, h: MiniHdrBoxes) -> usize
    requires { at + sum (hdr_lens h) ≤ length out.old }
    ensures { Wrote out.old at (sum (hdr_lens h)) (slots_bytes (hdr_slots h)) out.new result }
{
    put_hdr_boxes(out, at, &hdr_boxes(h))
}

#[tactic(auto, using(crate::proofs::Laws::slot_writes), unfolding(crate::specs::Slots::gain_map_slots, crate::specs::Slots::slots_bytes))]
fn put_gain_map_item_slots(out: &mut [u8], at: usize, image: MinimizedImage, source: &[u8]) -> usize
    requires { (at + sum (gain_map_lens image) ≤ length out.old) × Sound image source.now }
    ensures { Wrote out.old at (sum (gain_map_lens image)) (slots_bytes (gain_map_slots image source.now)) out.new result }
{
    let g = image.gain_map;
    let size = Size {
        width: g.width,
        height: g.height,
    };
    let cicp = Cicp {
        primaries: 2,
        transfer: 2,
        matrix: g.matrix_coefficients,
    };
    let box_type = config_type(image.explicit_codec_types);
    let at = put_config_slot(out, at, box_type, gain_map_config(image), source);
    let at = put_ispe(out, at, size);
    let at = put_pixi(out, at, g.format, g.chroma);
    put_nclx(out, at, cicp, g.full_range)
}

// 17 to 20.
#[tactic(auto, unfolding(crate::specs::Slots::gain_map_slots))]
fn put_gain_map_slots(out: &mut [u8], at: usize, image: MinimizedImage, source: &[u8]) -> usize
    requires { (at + if_there_len (has_gain_map_item image) (gain_map_lens image) ≤ length out.old) × Sound image source.now }
    ensures { Wrote out.old at (if_there_len (has_gain_map_item image) (gain_map_lens image)) (slots_bytes (if_there (has_gain_map_item image) (gain_map_slots image source.now))) out.new result }
{
    if has_gain_map_item(image) {
        put_gain_map_item_slots(out, at, image, source)
    } else {
        put_unused(out, at, 4)
    }
}

#[tactic(auto, using(crate::proofs::Laws::slot_writes), unfolding(crate::specs::Slots::tmap_slots, crate::specs::Slots::slots_bytes))]
fn put_tmap_item_slots(out: &mut [u8], at: usize, image: MinimizedImage, source: &[u8]) -> usize
    requires { (at + sum (tmap_lens image) ≤ length out.old) × Sound image source.now }
    ensures { Wrote out.old at (sum (tmap_lens image)) (slots_bytes (tmap_slots image source.now)) out.new result }
{
    let g = image.gain_map;
    let at = put_ispe(out, at, image.shown_size());
    let at = put_tmap_nclx_slot(out, at, g.tmap_cicp, g.tmap_icc);
    put_prof_slot(out, at, g.tmap_icc, source)
}

// 21 to 23.
#[tactic(auto, unfolding(crate::specs::Slots::tmap_slots))]
fn put_tmap_slots(out: &mut [u8], at: usize, image: MinimizedImage, source: &[u8]) -> usize
    requires { (at + if_there_len image.has_gain_map (tmap_lens image) ≤ length out.old) × Sound image source.now }
    ensures { Wrote out.old at (if_there_len image.has_gain_map (tmap_lens image)) (slots_bytes (if_there image.has_gain_map (tmap_slots image source.now))) out.new result }
{
    if image.has_gain_map {
        put_tmap_item_slots(out, at, image, source)
    } else {
        put_unused(out, at, 3)
    }
}

// 24 to 29.
#[tactic(auto, unfolding(crate::specs::Slots::hdr_slots))]
fn put_tmap_hdr_slots(out: &mut [u8], at: usize, there: bool, h: MiniHdrBoxes) -> usize
    requires { at + if_there_len there (hdr_lens h) ≤ length out.old }
    ensures { Wrote out.old at (if_there_len there (hdr_lens h)) (slots_bytes (if_there there (hdr_slots h))) out.new result }
{
    if there {
        put_hdr_slots(out, at, h)
    } else {
        put_unused(out, at, 6)
    }
}

// 1 to 16.
#[tactic(auto, using(crate::proofs::Laws::slot_writes), unfolding(crate::specs::Slots::picture_slots))]
fn put_picture_slots(out: &mut [u8], at: usize, image: MinimizedImage, source: &[u8]) -> usize
    requires { (at + picture_len image ≤ length out.old) × Sound image source.now }
    ensures { Wrote out.old at (picture_len image) (slots_bytes (picture_slots image source.now)) out.new result }
{
    let at = put_main_slots(out, at, image, source);
    let at = put_alpha_slots(out, at, image, source);
    let at = put_orientation_slots(out, at, image);
    put_hdr_slots(out, at, image.hdr_boxes)
}

// 17 to 32.
#[tactic(auto, using(crate::proofs::Laws::slot_writes), unfolding(crate::specs::Slots::tone_map_slots))]
fn put_tone_map_slots(out: &mut [u8], at: usize, image: MinimizedImage, source: &[u8]) -> usize
    requires { (at + tone_map_len image ≤ length out.old) × Sound image source.now }
    ensures { Wrote out.old at (tone_map_len image) (slots_bytes (tone_map_slots image source.now)) out.new result }
{
    let at = put_gain_map_slots(out, at, image, source);
    let at = put_tmap_slots(out, at, image, source);
    let at = put_tmap_hdr_slots(out, at, image.has_gain_map, image.gain_map.tmap_hdr);
    put_unused(out, at, UNUSED_AT_END)
}

#[tactic(auto, using(crate::proofs::Laws::slot_writes), unfolding(crate::specs::Slots::slots))]
fn ipco_body(out: &mut [u8], image: MinimizedImage, source: &[u8]) -> usize
    requires { (picture_len image + tone_map_len image ≤ length out.old) × Sound image source.now }
    ensures { Wrote out.old 0 (picture_len image + tone_map_len image) (slots_bytes (slots image source.now)) out.new result }
{
    let at = put_picture_slots(out, 0, image, source);
    put_tone_map_slots(out, at, image, source)
}

#[tactic(auto, using(boxes::specs::Boxed::boxes, crate::specs::Bounds::ipco_most), unfolding(crate::specs::Slots::ipco))]
pub fn put_ipco(out: &mut [u8], at: usize, image: MinimizedImage, source: &[u8]) -> usize
    requires { (at + ipco_len image ≤ length out.old) × Sound image source.now }
    ensures { Wrote out.old at (ipco_len image) (ipco image source.now) out.new result }
{
    put_boxed(out, at, IPCO, |part| ipco_body(part, image, source))
}
