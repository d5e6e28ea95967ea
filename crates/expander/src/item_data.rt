// mdat's content: the items' bytes, one item after another.
ghost use Rattle.std.specs.Prelude.{◌≡◌, [], ◌∷◌, ◌++◌, ◌+◌, ◌≤◌, length};
ghost use Rattle.octets.specs.Overwrite.{Wrote};
ghost use Rattle.mini.specs.Same.{chunk_len, chunk_bytes, span_bytes};
ghost use Rattle.items.specs.ItemBytes.{item_data};
ghost use Rattle.items.specs.ItemLocations.{data_len};
ghost use Rattle.items.specs.Optional.{bytes_if, len_if};
ghost use Rattle.slots.specs.Sound.{SpanPlaced, ChunkPlaced};
ghost use Rattle.expander.specs.EquivalentFile.{item_bytes, data_lengths};
ghost use Rattle.expander.specs.Placed.{DataPlaced, DataBounded, PlacedIf};

use items::{DataLengths, len_if};
use mini::{Chunk, MiniGainMap, MinimizedImage, Span, chunk_len};
use octets::{copy_in, part, put_u8};

// The span lies in the source; `put_span` of writer takes what the source has of any span, so they are two.
#[tactic(auto, unfolding(octets::specs::Part::part_of))]
fn put_span(out: &mut [u8], at: usize, source: &[u8], x: Span) -> usize
    requires { (at + x.len ≤ length out.old) × SpanPlaced x source.now }
    ensures { Wrote out.old at x.len (span_bytes x source.now) out.new result }
{
    copy_in(out, at, part(source, x))
}

// An absent chunk is passed over: by a rule of the project, with `let .. else` and the cursor as it came.
#[tactic(auto, using(octets::specs::OverwriteLaws::nothing))]
fn put_chunk(out: &mut [u8], cursor: usize, source: &[u8], chunk: Chunk) -> usize
    requires { (cursor + chunk_len chunk ≤ length out.old) × ChunkPlaced chunk source.now }
    ensures { Wrote out.old cursor (chunk_len chunk) (chunk_bytes chunk source.now) out.new result }
{
    let Some(span) = chunk else {
        return cursor;
    };
    put_span(out, cursor, source, span)
}

// Where there is a gain map: one zero byte and its metadata, which are the tone map's bytes, and then its own. The `if` stands here as in items
// (`len_if`).
#[tactic(auto, using(octets::specs::OverwriteLaws::writes, octets::specs::OverwriteLaws::nothing))]
fn put_gain_map_if(out: &mut [u8], at: usize, source: &[u8], on: bool, g: MiniGainMap) -> usize
    requires room { at + (len_if on (1 + g.metadata.len) + len_if on g.«data».len) ≤ length out.old }
    requires placed { PlacedIf on g.metadata source.now × PlacedIf on g.«data» source.now }
    ensures { Wrote out.old at (len_if on (1 + g.metadata.len) + len_if on g.«data».len)
        (bytes_if on ((0 ∷ []) ++ span_bytes g.metadata source.now) ++ bytes_if on (span_bytes g.«data» source.now)) out.new result }
{
    if on {
        let at = put_u8(out, at, 0);
        let at = put_span(out, at, source, g.metadata);
        put_span(out, at, source, g.data)
    } else {
        at
    }
}

#[tactic(auto, using(octets::specs::OverwriteLaws::writes), unfolding(crate::specs::EquivalentFile::item_bytes, crate::specs::EquivalentFile::data_lengths, items::specs::ItemBytes::item_data))]
pub fn put_item_data(out: &mut [u8], image: MinimizedImage, source: &[u8]) -> usize
    requires { (data_len (data_lengths image) ≤ length out.old) × DataPlaced image source.now }
    ensures { Wrote out.old 0 (data_len (data_lengths image)) (item_data (item_bytes image source.now)) out.new result }
{
    let at = put_span(out, 0, source, image.alpha_data);
    let at = put_gain_map_if(out, at, source, image.has_gain_map, image.gain_map);
    let at = put_span(out, at, source, image.main_data);
    let at = put_chunk(out, at, source, image.exif);
    put_chunk(out, at, source, image.xmp)
}

// A function and no `From`, which asks nothing of its argument: the sum of metadata and one byte needs a bound.
#[tactic(auto, unfolding(crate::specs::EquivalentFile::data_lengths))]
pub fn data_lengths(image: MinimizedImage) -> DataLengths
    requires { DataBounded image }
    ensures { result ≡ data_lengths image }
{
    DataLengths {
        alpha: image.alpha_data.len,
        tone_map: len_if(image.has_gain_map, 1 + image.gain_map.metadata.len),
        gain_map: len_if(image.has_gain_map, image.gain_map.data.len),
        main: image.main_data.len,
        exif: chunk_len(image.exif),
        xmp: chunk_len(image.xmp),
    }
}
