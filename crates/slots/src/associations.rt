// 'ipma': for each item the slots that hold its properties, in the order in which they apply; free slots are dropped.
ghost use Rattle.std.specs.Prelude.{cond, [], ◌∷◌, ◌≡◌, ◌+◌, ◌≤◌, ◌<◌, length};
ghost use Rattle.octets.specs.Overwrite.{Wrote};
ghost use Rattle.slots.specs.Associations.{is_kept, kept, one, row, row_if, row_count, ipma_body, ipma_with};
ghost use Rattle.slots.specs.Lengths.{row_len, row_if_len, ipma_body_len, ipma_len};
ghost use Rattle.slots.specs.Used.{used_slots};
ghost use Rattle.slots.specs.Sound.{Bounded};

use crate::groups::{alpha_config, gain_map_config, has_alpha_item, has_gain_map_item};
use crate::slot::has_tmap_nclx;
use boxes::{FourCc, put_boxed, put_full_box_header};
use mini::{ItemKind, MinimizedImage};
use octets::{put, put_u8};
use properties::orientation::turns_of;

const IPMA: FourCc = 0x69706D61;

// The bit before a slot's number that says that the property is essential.
const ESSENTIAL: u8 = 0x80;

// An item and its associations, each the byte that is written, in the order in which they apply.
#[derive(Clone, Copy, Debug, PartialEq, Eq)]
pub struct Row<const N: usize> {
    pub item: ItemKind,
    pub associations: [u8; N],
}

// A record without `hdr` has no HDR body: then 11 to 16 are dropped as free slots.
pub const MAIN_ROW: Row<13> = Row {
    item: ItemKind::MAIN,
    associations: [
        ESSENTIAL + 1,
        2,
        3,
        ESSENTIAL + 4,
        ESSENTIAL + 5,
        11,
        12,
        13,
        14,
        15,
        16,
        ESSENTIAL + 9,
        ESSENTIAL + 10,
    ],
};

pub const ALPHA_ROW: Row<6> = Row {
    item: ItemKind::ALPHA,
    associations: [
        ESSENTIAL + 6,
        2,
        ESSENTIAL + 7,
        8,
        ESSENTIAL + 9,
        ESSENTIAL + 10,
    ],
};

pub const TMAP_ROW: Row<9> = Row {
    item: ItemKind::TMAP,
    associations: [21, ESSENTIAL + 22, ESSENTIAL + 23, 24, 25, 26, 27, 28, 29],
};

pub const GAIN_MAP_ROW: Row<6> = Row {
    item: ItemKind::GAIN_MAP,
    associations: [
        ESSENTIAL + 17,
        18,
        19,
        ESSENTIAL + 20,
        ESSENTIAL + 9,
        ESSENTIAL + 10,
    ],
};

// Which slots are used, by number; they are counted from 1, and 0 is none. An array: there are always so many, and nothing here is allocated.
#[derive(Clone, Copy, Debug, PartialEq, Eq)]
pub struct UsedSlots(pub [bool; 33]);

impl UsedSlots {
    // Whether an association is kept, by the slot that it names. By reference: by value the 33 flags are written anew for each association.
    fn keeps(&self, association: u8) -> bool
        ensures { result ≡ is_kept self.now.0 association }
    {
        self.0
            .get(usize::from(association % 128))
            .copied()
            .unwrap_or(false)
    }

    // How many associations of a row are kept.
    #[tactic(auto, using(crate::proofs::Laws::kept_counts))]
    pub fn count(self, associations: &[u8]) -> usize
        ensures { (result ≡ length (kept self.0 associations.now)) × (result ≤ length associations.now) }
    {
        associations
            .iter()
            .filter(|association| self.keeps(**association))
            .count()
    }
}

// All 32 by number, as the table at the head of specs/Slots lists them: put together from groups, as in the definition, it would hide the numbers.
// No `From`, which asks nothing of its argument.
#[tactic(auto, using(crate::proofs::Laws::used_laws), unfolding(crate::specs::Used::used_slots))]
pub fn used_slots(image: MinimizedImage) -> UsedSlots
    requires { Bounded image }
    ensures { result.0 ≡ used_slots image }
{
    let turns = turns_of(image.orientation);
    let main = image.hdr_boxes;
    let g = image.gain_map;
    let alpha = has_alpha_item(image);
    let gain_map = has_gain_map_item(image);
    let tone_map = image.has_gain_map;
    UsedSlots([
        false,
        // 1 to 5, the main picture.
        0 < image.main_codec_config.len,
        true,
        true,
        true,
        image.icc.is_some(),
        // 6 to 8, alpha.
        alpha && 0 < alpha_config(image).len,
        alpha,
        alpha,
        // 9 and 10, its orientation.
        turns.angle.is_some(),
        turns.axis.is_some(),
        // 11 to 16, its HDR boxes.
        main.has_clli,
        main.has_mdcv,
        main.has_cclv,
        main.has_amve,
        main.has_reve,
        main.has_ndwt,
        // 17 to 20, the gain map.
        gain_map && 0 < gain_map_config(image).len,
        gain_map,
        gain_map,
        gain_map,
        // 21 to 29, the tone map.
        tone_map,
        tone_map && has_tmap_nclx(g.tmap_cicp, g.tmap_icc),
        tone_map && g.tmap_icc.is_some(),
        tone_map && g.tmap_hdr.has_clli,
        tone_map && g.tmap_hdr.has_mdcv,
        tone_map && g.tmap_hdr.has_cclv,
        tone_map && g.tmap_hdr.has_amve,
        tone_map && g.tmap_hdr.has_reve,
        tone_map && g.tmap_hdr.has_ndwt,
        // 30 to 32 have no property.
        false,
        false,
        false,
    ])
}

// An association, where its slot is used.
#[tactic(auto, using(octets::specs::OverwriteLaws::nothing))]
fn put_association(out: &mut [u8], at: usize, used: &UsedSlots, association: u8) -> usize
    requires { at + one (is_kept used.now.0 association) ≤ length out.old }
    ensures { Wrote out.old at (one (is_kept used.now.0 association)) (cond (is_kept used.now.0 association) (association ∷ []) []) out.new result }
{
    if used.keeps(association) {
        put_u8(out, at, association)
    } else {
        at
    }
}

#[tactic(auto, using(crate::proofs::Laws::kept_writes))]
fn put_kept(out: &mut [u8], at: usize, used: UsedSlots, associations: &[u8]) -> usize
    requires { at + length (kept used.0 associations.now) ≤ length out.old }
    ensures { Wrote out.old at (length (kept used.0 associations.now)) (kept used.0 associations.now) out.new result }
{
    // A loop, here and in slot.rt and groups.rt: after a `fold` nothing is known of an output that its closure changes.
    let mut next = at;
    for &association in associations {
        next = put_association(out, next, &used, association);
    }
    next
}

#[tactic(auto, using(octets::specs::OverwriteLaws::writes), unfolding(crate::specs::Associations::row))]
fn put_row<const N: usize>(out: &mut [u8], at: usize, used: UsedSlots, item_row: Row<N>) -> usize
    requires { (at + row_len used.0 item_row.associations ≤ length out.old) × (N ≤ 255) }
    ensures { Wrote out.old at (row_len used.0 item_row.entry.associations) (row used.0 item_row.entry.item.0 item_row.entry.associations) out.new result }
{
    let n = used.count(&item_row.associations);
    let at = put::<2>(out, at, u64::from(item_row.item.0));
    // `as`: a `usize` has no `From` to another number.
    let at = put_u8(out, at, n as u8);
    put_kept(out, at, used, &item_row.associations)
}

#[tactic(auto, using(octets::specs::OverwriteLaws::nothing))]
fn put_row_if<const N: usize>(
    out: &mut [u8],
    at: usize,
    there: bool,
    used: UsedSlots,
    item_row: Row<N>,
) -> usize
    requires { (at + row_if_len there used.0 item_row.associations ≤ length out.old) × (N ≤ 255) }
    ensures { Wrote out.old at (row_if_len there used.0 item_row.entry.associations) (row_if there used.0 item_row.entry.item.0 item_row.entry.associations) out.new result }
{
    if there {
        put_row(out, at, used, item_row)
    } else {
        at
    }
}

// Flag by flag: counted in an array, the three would take a function more, whose clause names the count.
fn row_count(image: MinimizedImage) -> u32
    ensures { result ≡ row_count image }
{
    1 + u32::from(has_alpha_item(image))
        + u32::from(image.has_gain_map)
        + u32::from(has_gain_map_item(image))
}

#[tactic(auto, using(crate::proofs::Laws::rows), unfolding(crate::specs::Associations::ipma_body))]
fn ipma_body(out: &mut [u8], image: MinimizedImage, used: UsedSlots) -> usize
    requires { ipma_body_len image used.0 ≤ length out.old }
    ensures { Wrote out.old 0 (ipma_body_len image used.0) (ipma_body image used.0) out.new result }
{
    let alpha = has_alpha_item(image);
    let gain_map = has_gain_map_item(image);
    let at = put_full_box_header(out, 0, 0, 0);
    let at = put::<4>(out, at, u64::from(row_count(image)));
    let at = put_row(out, at, used, MAIN_ROW);
    let at = put_row_if(out, at, alpha, used, ALPHA_ROW);
    let at = put_row_if(out, at, image.has_gain_map, used, TMAP_ROW);
    put_row_if(out, at, gain_map, used, GAIN_MAP_ROW)
}

#[tactic(auto, using(boxes::specs::Boxed::boxes, crate::proofs::Laws::ipma_bounds), unfolding(crate::specs::Associations::ipma_with))]
pub fn put_ipma(out: &mut [u8], at: usize, image: MinimizedImage) -> usize
    requires { (at + ipma_len image ≤ length out.old) × Bounded image }
    ensures { Wrote out.old at (ipma_len image) (ipma_with image (used_slots image)) out.new result }
{
    let used = used_slots(image);
    put_boxed(out, at, IPMA, |part| ipma_body(part, image, used))
}
