// The chunks, copied from the source in stored order.
ghost use Rattle.std.specs.Prelude.{◌≡◌, ◌-◌, min};
ghost use Rattle.mini.specs.Cut.{joined};
ghost use Rattle.mini.specs.Same.{span_bytes, chunk_bytes, chunks_of};
ghost use Rattle.writer.specs.Laid.{Laid};

use mini::{Chunk, MinimizedImage, Span};

// How many bytes of a span a source of `total` bytes has.
fn held(total: usize, x: Span) -> usize
    ensures { result ≡ min x.len (total - x.at) }
{
    x.len.min(total.saturating_sub(x.at))
}

// The bytes of a span that the source has, where there is room for them; and the place after them.
#[tactic(auto, using(crate::specs::Laid::laid_skip, crate::specs::Laid::laid_copy, crate::specs::Laid::part_short))]
fn put_span(out: &mut [u8], at: usize, source: &[u8], x: Span) -> usize
    ensures { Laid out.old at (span_bytes x source.now) out.new result }
{
    let len = held(source.len(), x);
    let end = at.wrapping_add(len);
    if !(Span { at, len }).is_within(out.len()) {
        return end;
    }
    octets::copy_in(out, at, octets::part(source, Span { len, ..x }));
    end
}

// An absent chunk is passed over: by a rule of the project a `let .. else` gives back the unchanged place.
#[tactic(auto, using(crate::specs::Laid::none))]
fn put_chunk(out: &mut [u8], at: usize, source: &[u8], c: Chunk) -> usize
    ensures { Laid out.old at (chunk_bytes c source.now) out.new result }
{
    let Some(span) = c else {
        return at;
    };
    put_span(out, at, source, span)
}

// All chunks, from a place on, named as the definition names them: a loop over an array of them is longer by 20 lines with its proof.
pub fn put_chunks(out: &mut [u8], at: usize, source: &[u8], i: MinimizedImage) -> usize
    ensures { Laid out.old at (joined (chunks_of i source.now)) out.new result }
{
    let g = i.gain_map;
    let at = put_span(out, at, source, i.main_codec_config);
    let at = put_chunk(out, at, source, i.alpha_codec_config);
    let at = put_chunk(out, at, source, g.codec_config);
    let at = put_chunk(out, at, source, i.icc);
    let at = put_chunk(out, at, source, g.tmap_icc);
    let at = put_span(out, at, source, g.metadata);
    let at = put_span(out, at, source, i.alpha_data);
    let at = put_span(out, at, source, g.data);
    let at = put_span(out, at, source, i.main_data);
    let at = put_chunk(out, at, source, i.exif);
    put_chunk(out, at, source, i.xmp)
}
