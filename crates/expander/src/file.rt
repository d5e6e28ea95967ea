// The boxes of the file, and how long they are. `Fit image source` stands in the contracts for the reason that `Bounded image` does in `slots`,
// and so record and source stay two parameters.
ghost use Rattle.std.specs.Prelude.{◌≡◌, true, ◌++◌, ◌+◌, ◌≤◌, ◌<◌, length};
ghost use Rattle.octets.specs.Overwrite.{Wrote};
ghost use Rattle.ftyp.specs.FileType.{allowed, file_type_len, file_type_box};
ghost use Rattle.items.specs.ItemLocations.{data_len};
ghost use Rattle.slots.specs.Sound.{Bounded};
ghost use Rattle.expander.specs.EquivalentFile.{item_set, data_lengths, item_boxes, item_boxes_len, meta_body, meta_body_len, meta, mdat};
ghost use Rattle.expander.specs.Placed.{Fit};

use crate::item_data::{data_lengths, put_item_data};
use boxes::{FourCc, put_boxed, put_full_box_header};
use ftyp::{EquivalentFileType, put_ftyp};
use items::group::{grpl_len, put_grpl};
use items::info::{iinf_len, put_iinf};
use items::locations::{iloc_len, put_iloc};
use items::references::{iref_len, put_iref};
use items::{DataLengths, HDLR_LEN, ItemSet, PITM_LEN, put_hdlr, put_pitm};
use mini::MinimizedImage;
use slots::groups::{has_alpha_item, has_gain_map_item};
use slots::iprp::put_iprp;
use slots::lengths::iprp_len;

pub const META: FourCc = 0x6D657461;

pub const MDAT: FourCc = 0x6D646174;

// A function and no `From`, since neither type is of this crate.
#[tactic(auto, unfolding(crate::specs::EquivalentFile::item_set))]
pub fn item_set(image: MinimizedImage) -> ItemSet
    ensures { result ≡ item_set image }
{
    ItemSet {
        item_type: image
            .explicit_codec_types
            .map_or(0, |types| types.infe_type),
        alpha: has_alpha_item(image),
        premultiplied: image.alpha_premultiplied,
        tone_map: image.has_gain_map,
        gain_map: has_gain_map_item(image),
        exif: image.exif.is_some(),
        xmp: image.xmp.is_some(),
        compressed: image.exif_xmp_compressed,
    }
}

// The handler, the primary item, the items and their references.
#[tactic(auto, using(octets::specs::OverwriteLaws::writes), unfolding(crate::specs::EquivalentFile::item_boxes))]
pub fn put_item_boxes(out: &mut [u8], at: usize, set: ItemSet) -> usize
    requires { at + item_boxes_len set ≤ length out.old }
    ensures { Wrote out.old at (item_boxes_len set) (item_boxes set) out.new result }
{
    let at = put_hdlr(out, at);
    let at = put_pitm(out, at);
    let at = put_iinf(out, at, set);
    put_iref(out, at, set)
}

// The item data lies from `base` on, here and below. In one struct with the lengths, `base` costs more in its uses than it saves as a parameter.
#[tactic(auto, using(octets::specs::OverwriteLaws::writes), unfolding(crate::specs::EquivalentFile::meta_body))]
fn put_meta_body(out: &mut [u8], image: MinimizedImage, source: &[u8], base: usize) -> usize
    requires room { meta_body_len image ≤ length out.old }
    requires fits { Fit image source.now × (base + data_len (data_lengths image) < 4294967296) }
    ensures { Wrote out.old 0 (meta_body_len image) (meta_body image source.now base) out.new result }
{
    let set = item_set(image);
    let at = put_full_box_header(out, 0, 0, 0);
    let at = put_item_boxes(out, at, set);
    let at = put_iprp(out, at, image, source);
    let at = put_grpl(out, at, set);
    put_iloc(out, at, base, data_lengths(image))
}

#[tactic(auto, using(boxes::specs::Boxed::boxes, crate::specs::Placed::meta_most), unfolding(crate::specs::EquivalentFile::meta))]
fn put_meta(out: &mut [u8], at: usize, image: MinimizedImage, source: &[u8], base: usize) -> usize
    requires room { at + (8 + meta_body_len image) ≤ length out.old }
    requires fits { Fit image source.now × (base + data_len (data_lengths image) < 4294967296) }
    ensures { Wrote out.old at (8 + meta_body_len image) (meta image source.now base) out.new result }
{
    put_boxed(
        out,
        at,
        META,
        |part| put_meta_body(part, image, source, base),
    )
}

#[tactic(auto, using(boxes::specs::Boxed::boxes, crate::specs::Placed::content_most), unfolding(crate::specs::EquivalentFile::mdat))]
fn put_mdat(out: &mut [u8], at: usize, image: MinimizedImage, source: &[u8]) -> usize
    requires { (at + (8 + data_len (data_lengths image)) ≤ length out.old) × Fit image source.now }
    ensures { Wrote out.old at (8 + data_len (data_lengths image)) (mdat image source.now) out.new result }
{
    put_boxed(out, at, MDAT, |part| put_item_data(part, image, source))
}

// What is known of a file before it is written: its file type, where mdat's content begins, and how long it is.
#[derive(Clone, Copy, Debug, PartialEq, Eq)]
pub struct FilePlan {
    pub file_type: EquivalentFileType,
    pub content_start: usize,
    pub len: usize,
}

// The whole file, from the output's first byte on.
#[tactic(auto, using(octets::specs::OverwriteLaws::writes, crate::specs::Placed::content_most, crate::specs::Placed::meta_most))]
pub fn put_file(
    out: &mut [u8],
    image: MinimizedImage,
    source: &[u8],
    brands: &[u8],
    plan: FilePlan,
) -> usize
    requires room { file_type_len plan.file_type brands.now + (8 + meta_body_len image) + (8 + data_len (data_lengths image)) ≤ length out.old }
    requires fits { Fit image source.now × (plan.content_start + data_len (data_lengths image) < 4294967296) }
    requires allowed { allowed brands.now ≡ true }
    ensures { Wrote out.old 0 (file_type_len plan.file_type brands.now + (8 + meta_body_len image) + (8 + data_len (data_lengths image)))
        (file_type_box plan.file_type brands.now ++ meta image source.now plan.content_start ++ mdat image source.now) out.new result }
{
    let at = put_ftyp(out, 0, plan.file_type, brands);
    let at = put_meta(out, at, image, source, plan.content_start);
    put_mdat(out, at, image, source)
}

// How long the body of 'meta' is. It takes the lengths: to compute them asks for bounds on the data, for which this function does not ask.
#[tactic(auto, using(crate::specs::Placed::meta_most))]
pub fn meta_body_len(image: MinimizedImage, lengths: DataLengths) -> usize
    requires { Bounded image × (lengths ≡ data_lengths image) }
    ensures { (result ≡ meta_body_len image) × (result ≤ 2110595) }
{
    let set = item_set(image);
    4 + (HDLR_LEN + PITM_LEN + iinf_len(set) + iref_len(set))
        + iprp_len(image)
        + grpl_len(set)
        + iloc_len(lengths)
}
