// Which items a file has, read from the bodies of 'iinf' and 'iref'.
ghost use Rattle.std.specs.Prelude.{◌≡◌, [], ◌∷◌, ◌++◌, true, drop};
ghost use Rattle.std.specs.List.{list_any};
ghost use Rattle.bits.specs.Format.{is_list};
ghost use Rattle.boxes.specs.BoxesIn.{boxes_in, has_box};
ghost use Rattle.items.specs.ItemInfo.{content_type, content_encoding};
ghost use Rattle.carried.specs.ReadItems.{PREM, entry_of, entries_in, first_type, numbered, compressed, items_in};

use crate::numbers::{number_2, number_4, same_bytes};
use crate::walk::{first_box, nth_box};
use boxes::{FourCc, parse_box_header, payload};
use items::ItemSet;
use items::info::DEFLATED_EXIF;
use items::references::PREM;
use mini::ItemKind;

// The content type, and the content encoding of what is compressed.
const DEFLATED_XMP: &[u8] = b"application/rdf+xml\0deflate\0";

// The type of the first item.
#[tactic(auto, using(crate::proofs::EntryLaws::first))]
fn item_type(iinf: &[u8]) -> FourCc
    ensures { result ≡ first_type (entries_in iinf.now) }
{
    number_4(payload(iinf, nth_box(iinf, 6, 0)), 8)
}

// Whether an entry has the item's number. A loop, here and below: the boxes are no slice.
#[tactic(auto, using(crate::proofs::EntryLaws::box_on, crate::proofs::EntryLaws::no_box, boxes::specs::Find::moves_on), unfolding(carried::specs::ReadItems::entries_in))]
fn has_item(iinf: &[u8], id: ItemKind) -> bool
    ensures { result ≡ list_any (numbered id.0) (entries_in iinf.now) }
{
    let mut at = 6;
    while let Ok(header) = parse_box_header(iinf, at) {
        if number_2(payload(iinf, header), 4) == id.0 {
            return true;
        }
        at = header.payload_start + header.payload_len;
    }
    false
}

// Exif is compressed by its type, XMP by its content encoding, which follows the empty name and the content type.
fn is_compressed(infe: &[u8]) -> bool
    ensures { result ≡ compressed (entry_of (record { type = 0; body = infe.now })) }
{
    let id = number_2(infe, 4);
    id == ItemKind::EXIF.0 && number_4(infe, 8) == DEFLATED_EXIF
        || id == ItemKind::XMP.0 && has_deflated_content(infe)
}

fn has_deflated_content(infe: &[u8]) -> bool
    ensures { result ≡ is_list (drop 13 infe.now) (content_type ++ content_encoding true) }
{
    same_bytes(infe.get(13..).unwrap_or_default(), DEFLATED_XMP)
}

#[tactic(auto, using(crate::proofs::EntryLaws::box_on, crate::proofs::EntryLaws::no_box, boxes::specs::Find::moves_on), unfolding(carried::specs::ReadItems::entries_in))]
fn has_compressed(iinf: &[u8]) -> bool
    ensures { result ≡ list_any compressed (entries_in iinf.now) }
{
    let mut at = 6;
    while let Ok(header) = parse_box_header(iinf, at) {
        if is_compressed(payload(iinf, header)) {
            return true;
        }
        at = header.payload_start + header.payload_len;
    }
    false
}

// Whether there is a 'prem'; the type of the blank header is 0.
#[tactic(auto, using(crate::proofs::EntryLaws::has))]
fn is_premultiplied(iref: &[u8]) -> bool
    ensures { result ≡ has_box PREM (boxes_in iref.now 4) }
{
    first_box(iref, 4, PREM).box_type == PREM
}

#[tactic(auto, unfolding(carried::specs::ReadItems::items_in))]
pub fn items_in(iinf: &[u8], iref: &[u8]) -> ItemSet
    ensures { result ≡ items_in iinf.now iref.now }
{
    ItemSet {
        item_type: item_type(iinf),
        alpha: has_item(iinf, ItemKind::ALPHA),
        premultiplied: is_premultiplied(iref),
        tone_map: has_item(iinf, ItemKind::TMAP),
        gain_map: has_item(iinf, ItemKind::GAIN_MAP),
        exif: has_item(iinf, ItemKind::EXIF),
        xmp: has_item(iinf, ItemKind::XMP),
        compressed: has_compressed(iinf),
    }
}
