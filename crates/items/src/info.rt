// 'iinf' with an 'infe' for each item.
ghost use Rattle.std.specs.Prelude.{◌≡◌, ◌+◌, ◌≤◌, length};
ghost use Rattle.octets.specs.Overwrite.{Wrote};
ghost use Rattle.items.specs.Optional.{bytes_if, len_if};
ghost use Rattle.items.specs.ItemInfo.{infe_fields, infe, infe_len, exif_type, content_type, content_encoding, encoding_len, mime_fields, mime, mime_len, entry_bytes, entry_count, entries_len, iinf_body, iinf, iinf_len};

use crate::{ItemSet, how_many, len_if};
use boxes::{FourCc, put_boxed, put_four_cc, put_full_box_header};
use mini::ItemKind;
use octets::{copy_in, put, put_u8};

pub const IINF: FourCc = 0x69696E66;

const INFE: FourCc = 0x696E6665;

const TMAP: FourCc = 0x746D6170;

const MIME: FourCc = 0x6D696D65;

const EXIF: FourCc = 0x45786966;

pub const DEFLATED_EXIF: FourCc = 0x64457866;

// The flags of an entry: numbers, no enum, since a box's flags are the number that is written.
const SHOWN: u32 = 0;

const HIDDEN: u32 = 1;

// How many bytes `put_infe` writes.
const INFE_LEN: usize = 21;

// What an 'infe' says of its item.
#[derive(Clone, Copy, Debug, PartialEq, Eq)]
struct Entry {
    id: ItemKind,
    flags: u32,
    item_type: FourCc,
}

impl Entry {
    // So that an entry is one line where it is made.
    fn new(id: ItemKind, flags: u32, item_type: FourCc) -> Self
        ensures { result ≡ record { id = id; flags = flags; item_type = item_type } }
    {
        Entry {
            id,
            flags,
            item_type,
        }
    }
}

#[tactic(auto, using(octets::specs::OverwriteLaws::writes), unfolding(crate::specs::ItemInfo::infe_fields))]
fn put_infe_fields(out: &mut [u8], entry: Entry) -> usize
    requires { 13 ≤ length out.old }
    ensures { Wrote out.old 0 13 (infe_fields entry.id.0 entry.flags entry.item_type) out.new result }
{
    let at = put_full_box_header(out, 0, 2, entry.flags);
    let at = put::<2>(out, at, u64::from(entry.id.0));
    let at = put::<2>(out, at, 0);
    let at = put_four_cc(out, at, entry.item_type);
    put_u8(out, at, 0)
}

#[tactic(auto, using(boxes::specs::Boxed::boxes), unfolding(crate::specs::ItemInfo::infe))]
fn put_infe(out: &mut [u8], at: usize, entry: Entry) -> usize
    requires { at + infe_len ≤ length out.old }
    ensures { Wrote out.old at infe_len (infe entry.id.0 entry.flags entry.item_type) out.new result }
{
    put_boxed(out, at, INFE, |part| put_infe_fields(part, entry))
}

#[tactic(auto, using(octets::specs::OverwriteLaws::nothing))]
fn put_infe_if(out: &mut [u8], at: usize, on: bool, entry: Entry) -> usize
    requires { at + len_if on infe_len ≤ length out.old }
    ensures { Wrote out.old at (len_if on infe_len) (bytes_if on (infe entry.id.0 entry.flags entry.item_type)) out.new result }
{
    if on { put_infe(out, at, entry) } else { at }
}

// One of two codes, as in the definition: a table by the flag would be no plainer than the `if`.
fn exif_type(compressed: bool) -> FourCc
    ensures { result ≡ exif_type compressed }
{
    if compressed { DEFLATED_EXIF } else { EXIF }
}

fn put_content_type(out: &mut [u8], at: usize) -> usize
    requires { at + 20 ≤ length out.old }
    ensures { Wrote out.old at 20 content_type out.new result }
{
    copy_in(out, at, b"application/rdf+xml\0")
}

fn put_content_encoding(out: &mut [u8], at: usize, compressed: bool) -> usize
    requires { at + encoding_len compressed ≤ length out.old }
    ensures { Wrote out.old at (encoding_len compressed) (content_encoding compressed) out.new result }
{
    if compressed {
        copy_in(out, at, b"deflate\0")
    } else {
        put_u8(out, at, 0)
    }
}

#[tactic(auto, using(octets::specs::OverwriteLaws::writes), unfolding(crate::specs::ItemInfo::mime_fields))]
fn put_mime_fields(out: &mut [u8], compressed: bool) -> usize
    requires { 33 + encoding_len compressed ≤ length out.old }
    ensures { Wrote out.old 0 (33 + encoding_len compressed) (mime_fields compressed) out.new result }
{
    let at = put_infe_fields(out, Entry::new(ItemKind::XMP, HIDDEN, MIME));
    let at = put_content_type(out, at);
    put_content_encoding(out, at, compressed)
}

#[tactic(auto, using(boxes::specs::Boxed::boxes), unfolding(crate::specs::ItemInfo::mime))]
fn put_mime(out: &mut [u8], at: usize, compressed: bool) -> usize
    requires { at + mime_len compressed ≤ length out.old }
    ensures { Wrote out.old at (mime_len compressed) (mime compressed) out.new result }
{
    put_boxed(out, at, INFE, |part| put_mime_fields(part, compressed))
}

#[tactic(auto, using(octets::specs::OverwriteLaws::nothing))]
fn put_mime_if(out: &mut [u8], at: usize, on: bool, compressed: bool) -> usize
    requires { at + len_if on (mime_len compressed) ≤ length out.old }
    ensures { Wrote out.old at (len_if on (mime_len compressed)) (bytes_if on (mime compressed)) out.new result }
{
    if on {
        put_mime(out, at, compressed)
    } else {
        at
    }
}

#[tactic(auto, using(octets::specs::OverwriteLaws::writes))]
fn put_entries(out: &mut [u8], at: usize, s: ItemSet) -> usize
    requires { at + entries_len s ≤ length out.old }
    ensures { Wrote out.old at (entries_len s) (entry_bytes s) out.new result }
{
    let main = Entry::new(ItemKind::MAIN, SHOWN, s.item_type);
    let alpha = Entry::new(ItemKind::ALPHA, HIDDEN, s.item_type);
    let tone_map = Entry::new(ItemKind::TMAP, SHOWN, TMAP);
    let gain_map = Entry::new(ItemKind::GAIN_MAP, HIDDEN, s.item_type);
    let exif = Entry::new(ItemKind::EXIF, HIDDEN, exif_type(s.compressed));
    let at = put_infe(out, at, main);
    let at = put_infe_if(out, at, s.alpha, alpha);
    let at = put_infe_if(out, at, s.tone_map, tone_map);
    let at = put_infe_if(out, at, s.gain_map, gain_map);
    let at = put_infe_if(out, at, s.exif, exif);
    put_mime_if(out, at, s.xmp, s.compressed)
}

fn entry_count(s: ItemSet) -> u16
    ensures { result ≡ entry_count s }
{
    let others = [s.alpha, s.tone_map, s.gain_map, s.exif, s.xmp];
    1 + how_many(&others)
}

#[tactic(auto, using(octets::specs::OverwriteLaws::writes, crate::specs::ItemInfo::entry_laws), unfolding(crate::specs::ItemInfo::iinf_body))]
fn put_iinf_body(out: &mut [u8], s: ItemSet) -> usize
    requires { 6 + entries_len s ≤ length out.old }
    ensures { Wrote out.old 0 (6 + entries_len s) (iinf_body s) out.new result }
{
    let at = put_full_box_header(out, 0, 0, 0);
    let at = put::<2>(out, at, u64::from(entry_count(s)));
    put_entries(out, at, s)
}

#[tactic(auto, using(boxes::specs::Boxed::boxes, crate::specs::ItemInfo::iinf_most), unfolding(crate::specs::ItemInfo::iinf))]
pub fn put_iinf(out: &mut [u8], at: usize, s: ItemSet) -> usize
    requires { at + iinf_len s ≤ length out.old }
    ensures { Wrote out.old at (iinf_len s) (iinf s) out.new result }
{
    put_boxed(out, at, IINF, |part| put_iinf_body(part, s))
}

fn mime_len(compressed: bool) -> usize
    ensures { (result ≡ mime_len compressed) × (result ≤ 49) }
{
    42 + len_if(compressed, 7)
}

// How many bytes the entries take, part by part as they are written: an array would name the same parts, and then add them.
fn entries_len(s: ItemSet) -> usize
    ensures { (result ≡ entries_len s) × (result ≤ 154) }
{
    INFE_LEN
        + len_if(s.alpha, INFE_LEN)
        + len_if(s.tone_map, INFE_LEN)
        + len_if(s.gain_map, INFE_LEN)
        + len_if(s.exif, INFE_LEN)
        + len_if(s.xmp, mime_len(s.compressed))
}

// How many bytes `put_iinf` writes.
pub fn iinf_len(s: ItemSet) -> usize
    ensures { (result ≡ iinf_len s) × (result ≤ 168) }
{
    14 + entries_len(s)
}
