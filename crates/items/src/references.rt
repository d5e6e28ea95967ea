// 'iref', left out where there is no reference.
ghost use Rattle.std.specs.Prelude.{cond, [], ◌∷◌, ◌++◌, ◌≡◌, ◌+◌, ◌*◌, ◌≤◌, length};
ghost use Rattle.octets.specs.BigEndian.{be};
ghost use Rattle.octets.specs.Overwrite.{Wrote};
ghost use Rattle.mini.specs.ItemKind.{MAIN, ALPHA, TMAP, GAIN_MAP};
ghost use Rattle.items.specs.Optional.{bytes_if, len_if};
ghost use Rattle.items.specs.ItemReferences.{item_ids, numbers, reference, alpha_refs, alpha_refs_len, tone_map_refs, tone_map_refs_len, references, references_len, iref_body, iref_box, iref, iref_len};

use crate::{ItemSet, len_if};
use boxes::{FourCc, put_boxed, put_full_box_header};
use mini::ItemKind;
use octets::put;

pub const IREF: FourCc = 0x69726566;

const AUXL: FourCc = 0x6175786C;

pub const PREM: FourCc = 0x7072656D;

const DIMG: FourCc = 0x64696D67;

const CDSC: FourCc = 0x63647363;

// How many bytes a reference to one item takes, and how many more a second item.
const REFERENCE_LEN: usize = 14;

const ID_LEN: usize = 2;

#[tactic(auto, using(crate::proofs::Laws::id_writes))]
fn put_ids(out: &mut [u8], from: ItemKind, to: &[ItemKind]) -> usize
    requires { (4 + 2 * length to.now ≤ length out.old) × (length to.now ≤ 2) }
    ensures { Wrote out.old 0 (4 + 2 * length to.now) (be 2 «from».0 ++ be 2 (length to.now) ++ item_ids (numbers to.now)) out.new result }
{
    let at = put::<2>(out, 0, u64::from(from.0));
    let mut next = put::<2>(out, at, to.len() as u64);
    // A loop: after a `fold` nothing is known of an output that its closure changes.
    for &id in to {
        next = put::<2>(out, next, u64::from(id.0));
    }
    next
}

// A reference to one item or two. Type and ends are each call's own: a struct of them would be made for one call and taken apart in it.
#[tactic(auto, using(boxes::specs::Boxed::boxes, crate::proofs::Laws::counted), unfolding(crate::specs::ItemReferences::reference))]
fn put_reference(
    out: &mut [u8],
    at: usize,
    reference_type: FourCc,
    from: ItemKind,
    to: &[ItemKind],
) -> usize
    requires { (at + (8 + (4 + 2 * length to.now)) ≤ length out.old) × (length to.now ≤ 2) }
    ensures { Wrote out.old at (8 + (4 + 2 * length to.now)) (reference reference_type «from».0 (numbers to.now)) out.new result }
{
    put_boxed(out, at, reference_type, |part| put_ids(part, from, to))
}

#[tactic(auto, using(octets::specs::OverwriteLaws::nothing))]
fn put_reference_if(
    out: &mut [u8],
    at: usize,
    on: bool,
    reference_type: FourCc,
    from: ItemKind,
    to: ItemKind,
) -> usize
    requires { at + len_if on 14 ≤ length out.old }
    ensures { Wrote out.old at (len_if on 14) (bytes_if on (reference reference_type «from».0 (to.0 ∷ []))) out.new result }
{
    if on {
        put_reference(out, at, reference_type, from, &[to])
    } else {
        at
    }
}

#[tactic(auto, using(octets::specs::OverwriteLaws::writes))]
fn put_present_alpha_refs(out: &mut [u8], at: usize, premultiplied: bool) -> usize
    requires { at + (14 + len_if premultiplied 14) ≤ length out.old }
    ensures { Wrote out.old at (14 + len_if premultiplied 14)
        (reference 0x6175786C ALPHA (MAIN ∷ []) ++ bytes_if premultiplied (reference 0x7072656D MAIN (ALPHA ∷ []))) out.new result }
{
    let at = put_reference(out, at, AUXL, ItemKind::ALPHA, &[ItemKind::MAIN]);
    put_reference_if(
        out,
        at,
        premultiplied,
        PREM,
        ItemKind::MAIN,
        ItemKind::ALPHA,
    )
}

#[tactic(auto, using(octets::specs::OverwriteLaws::nothing))]
fn put_alpha_refs(out: &mut [u8], at: usize, s: ItemSet) -> usize
    requires { at + alpha_refs_len s ≤ length out.old }
    ensures { Wrote out.old at (alpha_refs_len s) (alpha_refs s) out.new result }
{
    if s.alpha {
        put_present_alpha_refs(out, at, s.premultiplied)
    } else {
        at
    }
}

// 'dimg' from the tone map to the main picture and to the gain map that has data.
fn put_dimg(out: &mut [u8], at: usize, gain_map: bool) -> usize
    requires { at + (14 + len_if gain_map 2) ≤ length out.old }
    ensures { Wrote out.old at (14 + len_if gain_map 2)
        (reference 0x64696D67 TMAP (MAIN ∷ cond gain_map (GAIN_MAP ∷ []) [])) out.new result }
{
    // A part of one list: two calls would differ in their list alone.
    let to = [ItemKind::MAIN, ItemKind::GAIN_MAP];
    let n = 1 + usize::from(gain_map);
    put_reference(out, at, DIMG, ItemKind::TMAP, &to[..n])
}

#[tactic(auto, using(octets::specs::OverwriteLaws::nothing))]
fn put_tone_map_refs(out: &mut [u8], at: usize, s: ItemSet) -> usize
    requires { at + tone_map_refs_len s ≤ length out.old }
    ensures { Wrote out.old at (tone_map_refs_len s) (tone_map_refs s) out.new result }
{
    if s.tone_map {
        put_dimg(out, at, s.gain_map)
    } else {
        at
    }
}

#[tactic(auto, using(octets::specs::OverwriteLaws::writes), unfolding(crate::specs::ItemReferences::references))]
fn put_references(out: &mut [u8], at: usize, s: ItemSet) -> usize
    requires { at + references_len s ≤ length out.old }
    ensures { Wrote out.old at (references_len s) (references s) out.new result }
{
    let at = put_alpha_refs(out, at, s);
    let at = put_tone_map_refs(out, at, s);
    let at = put_reference_if(out, at, s.exif, CDSC, ItemKind::EXIF, ItemKind::MAIN);
    put_reference_if(out, at, s.xmp, CDSC, ItemKind::XMP, ItemKind::MAIN)
}

#[tactic(auto, using(octets::specs::OverwriteLaws::writes), unfolding(crate::specs::ItemReferences::iref_body))]
fn put_iref_body(out: &mut [u8], s: ItemSet) -> usize
    requires { 4 + references_len s ≤ length out.old }
    ensures { Wrote out.old 0 (4 + references_len s) (iref_body s) out.new result }
{
    let at = put_full_box_header(out, 0, 0, 0);
    put_references(out, at, s)
}

#[tactic(auto, using(boxes::specs::Boxed::boxes), unfolding(crate::specs::ItemReferences::iref_box))]
fn put_iref_box(out: &mut [u8], at: usize, s: ItemSet) -> usize
    requires { at + (8 + (4 + references_len s)) ≤ length out.old }
    ensures { Wrote out.old at (8 + (4 + references_len s)) (iref_box s) out.new result }
{
    put_boxed(out, at, IREF, |part| put_iref_body(part, s))
}

// How many bytes the references take.
fn references_len(s: ItemSet) -> usize
    ensures { (result ≡ references_len s) × (result ≤ 72) }
{
    len_if(
        s.alpha,
        REFERENCE_LEN + len_if(s.premultiplied, REFERENCE_LEN),
    ) + len_if(s.tone_map, REFERENCE_LEN + len_if(s.gain_map, ID_LEN))
        + len_if(s.exif, REFERENCE_LEN)
        + len_if(s.xmp, REFERENCE_LEN)
}

#[tactic(auto, using(octets::specs::OverwriteLaws::nothing, crate::specs::ItemReferences::reference_laws), unfolding(crate::specs::ItemReferences::iref))]
pub fn put_iref(out: &mut [u8], at: usize, s: ItemSet) -> usize
    requires { at + iref_len s ≤ length out.old }
    ensures { Wrote out.old at (iref_len s) (iref s) out.new result }
{
    if references_len(s) == 0 {
        at
    } else {
        put_iref_box(out, at, s)
    }
}

// How many bytes `put_iref` writes.
pub fn iref_len(s: ItemSet) -> usize
    ensures { (result ≡ iref_len s) × (result ≤ 84) }
{
    let len = references_len(s);
    if len == 0 { 0 } else { 12 + len }
}
