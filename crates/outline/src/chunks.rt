// The chunks in the order of their sizes and in the order in which they lie, and how many bytes come after them.
ghost use Rattle.std.specs.Prelude.{◌≡◌, ◌+◌, ◌-◌, ◌*◌, ◌≤◌, length, All};
ghost use Rattle.octets.specs.Overwrite.{Wrote};
ghost use Rattle.outline.specs.Chunks.{given_chunks, chunks_end};
ghost use Rattle.outline.specs.OutlineBytes.{entry, entries};

use layout::part::put_chunk;
use mini::{Chunk, MinimizedImage, chunk_len};
use octets::put_u8;

// The chunks' numbers, those of docs/ABI.md, in the order of their sizes.
pub const GIVEN_ORDER: [u8; 11] = [1, 2, 3, 4, 5, 6, 7, 8, 9, 10, 11];

// And in the order in which they lie.
pub const STORED_ORDER: [u8; 11] = [6, 9, 5, 1, 2, 3, 8, 4, 7, 10, 11];

// The chunks by number, the first that of number 1: by name, since that is how the record holds them. A span is present where its owner is.
#[tactic(auto, unfolding(crate::specs::Chunks::given_chunks))]
fn given_chunks(i: MinimizedImage) -> [Chunk; 11]
    ensures { result ≡ given_chunks i }
{
    let g = i.gain_map;
    [
        i.icc,
        g.tmap_icc,
        i.has_gain_map.then_some(g.metadata),
        i.has_gain_map.then_some(g.data),
        g.codec_config,
        Some(i.main_codec_config),
        Some(i.main_data),
        i.alpha.then_some(i.alpha_data),
        i.alpha_codec_config,
        i.exif,
        i.xmp,
    ]
}

#[tactic(auto, using(octets::specs::OverwriteLaws::writes), unfolding(crate::specs::OutlineBytes::entry))]
fn put_entry(out: &mut [u8], at: usize, number: u8, c: Chunk) -> usize
    requires { at + 18 ≤ length out.old }
    ensures { Wrote out.old at 18 (entry number c) out.new result }
{
    let at = put_u8(out, at, number);
    put_chunk(out, at, c)
}

// The chunks in an order of their numbers. A `for`, here and in ends.rt: after a `fold` nothing is known of an output that its closure changes.
pub fn put_entries(out: &mut [u8], at: usize, i: MinimizedImage, order: &[u8]) -> usize
    requires room { at + 18 * length order.now ≤ length out.old }
    requires numbers { All (λ n. (1 ≤ n) × (n ≤ 11)) order.now }
    ensures { Wrote out.old at (18 * length order.now) (entries i order.now) out.new result }
{
    let chunks = given_chunks(i);
    let mut at = at;
    for &number in order {
        at = put_entry(out, at, number, chunks[usize::from(number) - 1]);
    }
    at
}

// How many of `total` bytes come after the last chunk.
#[tactic(auto, unfolding(crate::specs::Chunks::chunks_end))]
pub fn ignored(total: usize, i: MinimizedImage) -> usize
    ensures { result ≡ total - chunks_end i }
{
    total
        .saturating_sub(i.main_data.at)
        .saturating_sub(i.main_data.len)
        .saturating_sub(chunk_len(i.exif))
        .saturating_sub(chunk_len(i.xmp))
}
