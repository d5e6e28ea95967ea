// A record as bytes: docs/ABI.md has the layout. Each function writes one field or one group of them.
#![tactic(auto)]

ghost use Rattle.std.specs.Prelude.{◌≡◌, [], ◌∷◌, ◌++◌, ◌+◌, ◌≤◌, length};
ghost use Rattle.octets.specs.Overwrite.{Wrote};
ghost use Rattle.record_layout.specs.RecordBytes.{codec_types_bytes, format_bytes, chroma_bytes, colour_bytes, cicp_bytes, tmap_cicp_bytes, hdr_flag_bytes, hdr_body_bytes, hdr_boxes_bytes, hdr_boxes_bytes_if, gain_map_picture_bytes, gain_map_bytes, gain_map_bytes_if, picture_bytes, colour_and_alpha_bytes, item_bytes, record_bytes};

use layout::part::{put_chunk, put_flag, put_span};
use mini::{
    Cicp, CodecTypes, MiniChroma, MiniGainMap, MiniHdrBoxes, MinimizedImage, SampleFormat, TmapCicp,
};
use octets::{copy_in, put, put_u8, put_zeros};

pub const RECORD_LEN: usize = 441;

const HDR_BOXES_LEN: usize = 103;

const GAIN_MAP_LEN: usize = 189;

// What is absent is zeros, here and below, by an `if` or a `let .. else` in each function, as in layout: with a closure for what is present,
// the gain map does not prove.
#[tactic(auto, using(octets::specs::OverwriteLaws::writes))]
fn put_codec_types(out: &mut [u8], at: usize, t: Option<CodecTypes>) -> usize
    requires { at + 9 ≤ length out.old }
    ensures { Wrote out.old at 9 (codec_types_bytes t) out.new result }
{
    let Some(types) = t else {
        return put_zeros(out, at, 9);
    };
    let at = put_u8(out, at, 1);
    let at = put::<4>(out, at, u64::from(types.infe_type));
    put::<4>(out, at, u64::from(types.codec_config_type))
}

#[tactic(auto, using(octets::specs::OverwriteLaws::writes), unfolding(crate::specs::RecordBytes::format_bytes))]
fn put_format(out: &mut [u8], at: usize, f: SampleFormat) -> usize
    requires { at + 2 ≤ length out.old }
    ensures { Wrote out.old at 2 (format_bytes f) out.new result }
{
    let at = put_flag(out, at, f.is_float());
    put_u8(out, at, f.bits())
}

#[tactic(auto, using(octets::specs::OverwriteLaws::writes), unfolding(crate::specs::RecordBytes::chroma_bytes))]
fn put_chroma(out: &mut [u8], at: usize, c: MiniChroma) -> usize
    requires { at + 3 ≤ length out.old }
    ensures { Wrote out.old at 3 (chroma_bytes c) out.new result }
{
    let at = put_u8(out, at, c.subsampling);
    let at = put_flag(out, at, c.horizontally_centered);
    put_flag(out, at, c.vertically_centered)
}

// A colour that is present: 1, and then its parts.
#[tactic(auto, using(octets::specs::OverwriteLaws::writes), unfolding(crate::specs::RecordBytes::colour_bytes))]
fn put_colour(out: &mut [u8], at: usize, c: Cicp) -> usize
    requires { at + 4 ≤ length out.old }
    ensures { Wrote out.old at 4 (colour_bytes c) out.new result }
{
    let at = put_u8(out, at, 1);
    let at = put_u8(out, at, c.primaries);
    let at = put_u8(out, at, c.transfer);
    put_u8(out, at, c.matrix)
}

fn put_cicp(out: &mut [u8], at: usize, t: Option<Cicp>) -> usize
    requires { at + 4 ≤ length out.old }
    ensures { Wrote out.old at 4 (cicp_bytes t) out.new result }
{
    let Some(cicp) = t else {
        return put_zeros(out, at, 4);
    };
    put_colour(out, at, cicp)
}

#[tactic(auto, using(octets::specs::OverwriteLaws::writes))]
fn put_tmap_cicp(out: &mut [u8], at: usize, t: Option<TmapCicp>) -> usize
    requires { at + 5 ≤ length out.old }
    ensures { Wrote out.old at 5 (tmap_cicp_bytes t) out.new result }
{
    let Some(tmap) = t else {
        return put_zeros(out, at, 5);
    };
    let at = put_colour(out, at, tmap.cicp);
    put_flag(out, at, tmap.full_range)
}

// The six by name, here and below: a loop over a list of them names each too, and its bytes take an invariant and a law of the list.
#[tactic(auto, using(octets::specs::OverwriteLaws::writes), unfolding(crate::specs::RecordBytes::hdr_flag_bytes))]
fn put_hdr_flags(out: &mut [u8], at: usize, h: MiniHdrBoxes) -> usize
    requires { at + 6 ≤ length out.old }
    ensures { Wrote out.old at 6 (hdr_flag_bytes h) out.new result }
{
    let at = put_flag(out, at, h.has_clli);
    let at = put_flag(out, at, h.has_mdcv);
    let at = put_flag(out, at, h.has_cclv);
    let at = put_flag(out, at, h.has_amve);
    let at = put_flag(out, at, h.has_reve);
    put_flag(out, at, h.has_ndwt)
}

#[tactic(auto, using(octets::specs::OverwriteLaws::writes), unfolding(crate::specs::RecordBytes::hdr_body_bytes))]
fn put_hdr_bodies(out: &mut [u8], at: usize, h: MiniHdrBoxes) -> usize
    requires { at + 97 ≤ length out.old }
    ensures { Wrote out.old at 97 (hdr_body_bytes h) out.new result }
{
    let at = copy_in(out, at, &h.clli);
    let at = copy_in(out, at, &h.mdcv);
    let at = copy_in(out, at, &h.cclv);
    let at = copy_in(out, at, &h.amve);
    let at = copy_in(out, at, &h.reve);
    copy_in(out, at, &h.ndwt)
}

#[tactic(auto, using(octets::specs::OverwriteLaws::writes), unfolding(crate::specs::RecordBytes::hdr_boxes_bytes))]
fn put_hdr_boxes(out: &mut [u8], at: usize, h: MiniHdrBoxes) -> usize
    requires { at + 103 ≤ length out.old }
    ensures { Wrote out.old at 103 (hdr_boxes_bytes h) out.new result }
{
    let at = put_hdr_flags(out, at, h);
    put_hdr_bodies(out, at, h)
}

fn put_hdr_boxes_if(out: &mut [u8], at: usize, on: bool, h: MiniHdrBoxes) -> usize
    requires { at + 103 ≤ length out.old }
    ensures { Wrote out.old at 103 (hdr_boxes_bytes_if on h) out.new result }
{
    if on {
        put_hdr_boxes(out, at, h)
    } else {
        put_zeros(out, at, HDR_BOXES_LEN)
    }
}

#[tactic(auto, using(octets::specs::OverwriteLaws::writes), unfolding(crate::specs::RecordBytes::gain_map_picture_bytes))]
fn put_gain_map_picture(out: &mut [u8], at: usize, g: MiniGainMap) -> usize
    requires { at + 20 ≤ length out.old }
    ensures { Wrote out.old at 20 (gain_map_picture_bytes g) out.new result }
{
    let at = put::<4>(out, at, u64::from(g.width));
    let at = put::<4>(out, at, u64::from(g.height));
    let at = put_u8(out, at, g.matrix_coefficients);
    let at = put_flag(out, at, g.full_range);
    let at = put_chroma(out, at, g.chroma);
    let at = put_format(out, at, g.format);
    put_tmap_cicp(out, at, g.tmap_cicp)
}

#[tactic(auto, using(octets::specs::OverwriteLaws::writes), unfolding(crate::specs::RecordBytes::gain_map_bytes))]
fn put_gain_map(out: &mut [u8], at: usize, g: MiniGainMap) -> usize
    requires { at + 189 ≤ length out.old }
    ensures { Wrote out.old at 189 (gain_map_bytes g) out.new result }
{
    let at = put_gain_map_picture(out, at, g);
    let at = put_chunk(out, at, g.tmap_icc);
    let at = put_hdr_boxes(out, at, g.tmap_hdr);
    let at = put_span(out, at, g.metadata);
    let at = put_chunk(out, at, g.codec_config);
    put_span(out, at, g.data)
}

fn put_gain_map_if(out: &mut [u8], at: usize, on: bool, g: MiniGainMap) -> usize
    requires { at + 189 ≤ length out.old }
    ensures { Wrote out.old at 189 (gain_map_bytes_if on g) out.new result }
{
    if on {
        put_gain_map(out, at, g)
    } else {
        put_zeros(out, at, GAIN_MAP_LEN)
    }
}

// Codec types, samples, orientation and dimensions.
#[tactic(auto, using(octets::specs::OverwriteLaws::writes), unfolding(crate::specs::RecordBytes::picture_bytes))]
fn put_picture(out: &mut [u8], at: usize, i: MinimizedImage) -> usize
    requires { at + 24 ≤ length out.old }
    ensures { Wrote out.old at 24 (picture_bytes i) out.new result }
{
    let at = put_codec_types(out, at, i.explicit_codec_types);
    let at = put_format(out, at, i.format);
    let at = put_flag(out, at, i.full_range);
    let at = put_chroma(out, at, i.chroma);
    let at = put_u8(out, at, i.orientation);
    let at = put::<4>(out, at, u64::from(i.width));
    put::<4>(out, at, u64::from(i.height))
}

// Colour, alpha and hdr.
#[tactic(auto, using(octets::specs::OverwriteLaws::writes), unfolding(crate::specs::RecordBytes::colour_and_alpha_bytes))]
fn put_colour_and_alpha(out: &mut [u8], at: usize, i: MinimizedImage) -> usize
    requires { at + 24 ≤ length out.old }
    ensures { Wrote out.old at 24 (colour_and_alpha_bytes i) out.new result }
{
    let at = put_cicp(out, at, i.explicit_cicp);
    let at = put_chunk(out, at, i.icc);
    let at = put_flag(out, at, i.alpha);
    let at = put_flag(out, at, i.alpha_premultiplied);
    put_flag(out, at, i.hdr)
}

// Configurations, item data, Exif and XMP.
#[tactic(auto, using(octets::specs::OverwriteLaws::writes), unfolding(crate::specs::RecordBytes::item_bytes))]
fn put_items(out: &mut [u8], at: usize, i: MinimizedImage) -> usize
    requires { at + 100 ≤ length out.old }
    ensures { Wrote out.old at 100 (item_bytes i) out.new result }
{
    let at = put_span(out, at, i.main_codec_config);
    let at = put_span(out, at, i.main_data);
    let at = put_chunk(out, at, i.alpha_codec_config);
    let at = put_span(out, at, i.alpha_data);
    let at = put_flag(out, at, i.exif_xmp_compressed);
    let at = put_chunk(out, at, i.exif);
    put_chunk(out, at, i.xmp)
}

#[tactic(auto, using(octets::specs::OverwriteLaws::writes), unfolding(crate::specs::RecordBytes::record_bytes))]
pub fn put_record(out: &mut [u8], at: usize, i: MinimizedImage) -> usize
    requires { at + 441 ≤ length out.old }
    ensures { Wrote out.old at 441 (record_bytes i) out.new result }
{
    let at = put_picture(out, at, i);
    let at = put_colour_and_alpha(out, at, i);
    let at = put_hdr_boxes_if(out, at, i.hdr, i.hdr_boxes);
    let at = put_flag(out, at, i.has_gain_map);
    let at = put_gain_map_if(out, at, i.has_gain_map, i.gain_map);
    put_items(out, at, i)
}

// How many bytes `put_record` writes: the same for each record. A function beside the constant, since its clause says so of the bytes.
#[tactic(auto, using(crate::specs::RecordLength::length_record, crate::specs::RecordLength::length_hdr))]
pub fn record_len(i: MinimizedImage) -> usize
    ensures { (result ≡ length (record_bytes i)) × (result ≡ 441) }
{
    RECORD_LEN
}
