// 'iloc' version 1: an entry for each item that has bytes.
ghost use Rattle.std.specs.Prelude.{◌≡◌, ◌+◌, ◌≤◌, ◌<◌, length};
ghost use Rattle.octets.specs.Overwrite.{Wrote};
ghost use Rattle.items.specs.ItemLocations.{entry, entries, iloc_body, iloc, located, locations, data_len, for_bytes, location_count, entries_len, iloc_len};

use crate::{DataLengths, how_many};
use boxes::{FourCc, put_boxed, put_full_box_header};
use mini::{ItemKind, Span};
use octets::put;

pub const ILOC: FourCc = 0x696C6F63;

// How many bytes `put_entry` writes.
const ENTRY_LEN: usize = 16;

#[tactic(auto, using(octets::specs::OverwriteLaws::writes), unfolding(crate::specs::ItemLocations::entry))]
fn put_entry(out: &mut [u8], at: usize, id: ItemKind, bytes: Span) -> usize
    requires { at + 16 ≤ length out.old }
    ensures { Wrote out.old at 16 (entry (record { id = id.0; off = bytes.at; len = bytes.len })) out.new result }
{
    let at = put::<2>(out, at, u64::from(id.0));
    let at = put::<2>(out, at, 0);
    let at = put::<2>(out, at, 0);
    let at = put::<2>(out, at, 1);
    let at = put::<4>(out, at, bytes.at as u64);
    put::<4>(out, at, bytes.len as u64)
}

// An item without bytes has no entry.
#[tactic(auto, using(octets::specs::OverwriteLaws::nothing))]
fn put_located(out: &mut [u8], at: usize, id: ItemKind, bytes: Span) -> usize
    requires { at + for_bytes bytes.len 16 ≤ length out.old }
    ensures { Wrote out.old at (for_bytes bytes.len 16) (entries (located id.0 bytes.at bytes.len)) out.new result }
{
    if bytes.len == 0 {
        at
    } else {
        put_entry(out, at, id, bytes)
    }
}

// The entries go by item number, the bytes lie in another order. Row by row: a table of the six would name the same values, and its loop would take
// a law of the list. In one struct with the lengths, `base` takes more text in its uses than it saves as a parameter, here and below.
#[tactic(auto, using(octets::specs::OverwriteLaws::writes, crate::specs::ItemLocations::location_laws), unfolding(crate::specs::ItemLocations::locations))]
fn put_entries(out: &mut [u8], at: usize, base: usize, l: DataLengths) -> usize
    requires room { at + entries_len l ≤ length out.old }
    requires offsets { base + data_len l < 4294967296 }
    ensures { Wrote out.old at (entries_len l) (entries (locations base l)) out.new result }
{
    let alpha = Span {
        at: base,
        len: l.alpha,
    };
    let tone_map = alpha.next(l.tone_map);
    let gain_map = tone_map.next(l.gain_map);
    let main = gain_map.next(l.main);
    let exif = main.next(l.exif);
    let xmp = exif.next(l.xmp);
    let at = put_located(out, at, ItemKind::MAIN, main);
    let at = put_located(out, at, ItemKind::ALPHA, alpha);
    let at = put_located(out, at, ItemKind::TMAP, tone_map);
    let at = put_located(out, at, ItemKind::GAIN_MAP, gain_map);
    let at = put_located(out, at, ItemKind::EXIF, exif);
    put_located(out, at, ItemKind::XMP, xmp)
}

fn location_count(l: DataLengths) -> u16
    ensures value { result ≡ location_count l }
    ensures upper_bound { result ≤ 6 }
{
    let lengths = [l.main, l.alpha, l.tone_map, l.gain_map, l.exif, l.xmp];
    how_many(&lengths.map(|len| len != 0))
}

#[tactic(auto, using(octets::specs::OverwriteLaws::writes, crate::specs::ItemLocations::location_laws), unfolding(crate::specs::ItemLocations::iloc_body))]
fn put_iloc_body(out: &mut [u8], base: usize, l: DataLengths) -> usize
    requires room { 8 + entries_len l ≤ length out.old }
    requires offsets { base + data_len l < 4294967296 }
    ensures { Wrote out.old 0 (8 + entries_len l) (iloc_body (locations base l)) out.new result }
{
    let at = put_full_box_header(out, 0, 1, 0);
    let at = put::<2>(out, at, 0x4400);
    let at = put::<2>(out, at, u64::from(location_count(l)));
    put_entries(out, at, base, l)
}

// The items' bytes lie from `base` on, in the order of the lengths.
#[tactic(auto, using(boxes::specs::Boxed::boxes), unfolding(crate::specs::ItemLocations::iloc))]
pub fn put_iloc(out: &mut [u8], at: usize, base: usize, l: DataLengths) -> usize
    requires room { at + iloc_len l ≤ length out.old }
    requires offsets { base + data_len l < 4294967296 }
    ensures { Wrote out.old at (iloc_len l) (iloc (locations base l)) out.new result }
{
    put_boxed(out, at, ILOC, |part| put_iloc_body(part, base, l))
}

// How many bytes `put_iloc` writes.
pub fn iloc_len(l: DataLengths) -> usize
    ensures { (result ≡ iloc_len l) × (result ≤ 112) }
{
    16 + ENTRY_LEN * usize::from(location_count(l))
}
