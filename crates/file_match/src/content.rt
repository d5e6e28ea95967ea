// mdat's content: the items' bytes, one item after another.
ghost use Rattle.std.specs.Prelude.{◌≡◌, Some, [], ◌∷◌, ◌++◌};
ghost use Rattle.mini.specs.Same.{chunk_bytes, span_bytes};
ghost use Rattle.items.specs.ItemBytes.{item_data};
ghost use Rattle.items.specs.Optional.{bytes_if};
ghost use Rattle.slots.specs.Sound.{SpanPlaced, ChunkPlaced};
ghost use Rattle.expander.specs.EquivalentFile.{item_bytes};
ghost use Rattle.expander.specs.Placed.{DataPlaced, PlacedIf};
ghost use Rattle.matching.specs.Matched.{matched};

use matching::{match_bytes, match_part};
use mini::{Chunk, MiniGainMap, MinimizedImage, Span};

#[tactic(auto, unfolding(octets::specs::Part::part_of))]
fn match_span(file: &[u8], at: usize, x: Span) -> Option<usize>
    requires { SpanPlaced x file.now }
    ensures { result ≡ matched file.now (Some at) (span_bytes x file.now) }
{
    match_part(file, at, x)
}

// Of an absent chunk no bytes have to stand there: the place stays, if it lies within the file.
fn match_chunk(file: &[u8], at: usize, chunk: Chunk) -> Option<usize>
    requires { ChunkPlaced chunk file.now }
    ensures { result ≡ matched file.now (Some at) (chunk_bytes chunk file.now) }
{
    let Some(span) = chunk else {
        return match_bytes(file, at, &[]);
    };
    match_span(file, at, span)
}

// Where there is a gain map: one zero byte and its metadata, which are the tone map's bytes, and then its own.
#[tactic(auto, using(matching::specs::MatchedLaws::pieces))]
fn match_gain_map_if(file: &[u8], at: usize, on: bool, g: MiniGainMap) -> Option<usize>
    requires { PlacedIf on g.metadata file.now × PlacedIf on g.«data» file.now }
    ensures { result ≡ matched file.now (Some at) (bytes_if on ((0 ∷ []) ++ span_bytes g.metadata file.now) ++ bytes_if on (span_bytes g.«data» file.now)) }
{
    if !on {
        return match_bytes(file, at, &[]);
    }
    let at = match_bytes(file, at, &[0])?;
    let at = match_span(file, at, g.metadata)?;
    match_span(file, at, g.data)
}

#[tactic(auto, using(matching::specs::MatchedLaws::pieces), unfolding(expander::specs::EquivalentFile::item_bytes, items::specs::ItemBytes::item_data))]
pub fn match_item_data(file: &[u8], at: usize, image: MinimizedImage) -> Option<usize>
    requires { DataPlaced image file.now }
    ensures { result ≡ matched file.now (Some at) (item_data (item_bytes image file.now)) }
{
    let at = match_span(file, at, image.alpha_data)?;
    let at = match_gain_map_if(file, at, image.has_gain_map, image.gain_map)?;
    let at = match_span(file, at, image.main_data)?;
    let at = match_chunk(file, at, image.exif)?;
    match_chunk(file, at, image.xmp)
}
