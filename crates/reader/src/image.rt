// The record that a header gives, with its chunks placed in the payload.
ghost use Rattle.std.specs.Prelude.{◌≡◌, ◌+◌, ◌/◌, ◌≤◌, IfErr};
ghost use Rattle.bits.specs.Run.{bit_index, state};
ghost use Rattle.bits.specs.State.{clean};
ghost use Rattle.mini.specs.Chunks.{stored_sizes, stored_spans, first_past, span_if};
ghost use Rattle.mini.specs.Image.{gain_map_of, image_of};
ghost use Rattle.mini.specs.Cut.{sum};
ghost use Rattle.mini.specs.Read.{reading_of, read_chunks};
ghost use Rattle.reader.specs.ReadingParts.{reading_with, number_and_record, without_bit};

use bits::{BitPos, Bits, ReadError, ReadErrorKind};
use mini::{
    ChunkSizes, ChunkSpans, GainMapHeader, Header, MiniGainMap, MiniHdrBoxes, MinimizedImage, Span,
};

// The span of a part that has one in every record, so no Option: at 0 where its owner is absent, as the definition has it.
fn span_if(on: bool, span: Span) -> Span
    ensures { result ≡ span_if on span }
{
    if on { span } else { Span { at: 0, ..span } }
}

// The length of all the chunks together, by name: over an array the sum's bound does not close.
#[tactic(auto, unfolding(mini::specs::Chunks::stored_sizes))]
fn chunks_len(z: ChunkSizes) -> usize
    requires { sum (stored_sizes z) ≤ 2952790016 }
    ensures { result ≡ sum (stored_sizes z) }
{
    z.main_codec_config
        + z.alpha_codec_config
        + z.gain_map_codec_config
        + z.icc
        + z.tmap_icc
        + z.gain_map_metadata
        + z.alpha_data
        + z.gain_map_data
        + z.main_data
        + z.exif
        + z.xmp
}

// The lengths of the chunks in stored order.
#[tactic(auto, unfolding(mini::specs::Chunks::stored_sizes))]
fn stored_sizes(z: ChunkSizes) -> [usize; 11]
    ensures { result ≡ stored_sizes z }
{
    [
        z.main_codec_config,
        z.alpha_codec_config,
        z.gain_map_codec_config,
        z.icc,
        z.tmap_icc,
        z.gain_map_metadata,
        z.alpha_data,
        z.gain_map_data,
        z.main_data,
        z.exif,
        z.xmp,
    ]
}

// Where the first part begins that ends past n bytes, of parts that lie one after another from the byte `at` on; where none does, their end.
fn first_past(n: usize, at: usize, sizes: &[usize]) -> usize
    requires { at + sum sizes.now ≤ 18446744073709551615 }
    ensures { result ≡ first_past n at sizes.now }
{
    let mut at = at;
    for &size in sizes {
        if n < at + size {
            return at;
        }
        at += size;
    }
    at
}

// The chunks in stored order, the first from the byte `at` on: by name, as the definition lists them.
#[tactic(auto, unfolding(mini::specs::Chunks::stored_sizes, mini::specs::Chunks::stored_spans))]
fn spans_of(z: ChunkSizes, at: usize) -> ChunkSpans
    requires { at + sum (stored_sizes z) ≤ 18446744073709551615 }
    ensures { result ≡ stored_spans z at }
{
    let main_codec_config = Span {
        at,
        len: z.main_codec_config,
    };
    let alpha_codec_config = main_codec_config.next(z.alpha_codec_config);
    let gain_map_codec_config = alpha_codec_config.next(z.gain_map_codec_config);
    let icc = gain_map_codec_config.next(z.icc);
    let tmap_icc = icc.next(z.tmap_icc);
    let gain_map_metadata = tmap_icc.next(z.gain_map_metadata);
    let alpha_data = gain_map_metadata.next(z.alpha_data);
    let gain_map_data = alpha_data.next(z.gain_map_data);
    let main_data = gain_map_data.next(z.main_data);
    let exif = main_data.next(z.exif);
    let xmp = exif.next(z.xmp);
    ChunkSpans {
        main_codec_config,
        alpha_codec_config,
        gain_map_codec_config,
        icc,
        tmap_icc,
        gain_map_metadata,
        alpha_data,
        gain_map_data,
        main_data,
        exif,
        xmp,
    }
}

fn gain_map_of(g: GainMapHeader, tmap_hdr: MiniHdrBoxes, p: ChunkSpans) -> MiniGainMap
    ensures { result ≡ gain_map_of g tmap_hdr p }
{
    MiniGainMap {
        width: g.width,
        height: g.height,
        matrix_coefficients: g.matrix_coefficients,
        full_range: g.full_range,
        chroma: g.chroma,
        format: g.format,
        tmap_cicp: g.tmap_cicp,
        tmap_icc: g.tmap_icc.then_some(p.tmap_icc),
        tmap_hdr,
        metadata: span_if(g.present, p.gain_map_metadata),
        codec_config: (0 < p.gain_map_codec_config.len).then_some(p.gain_map_codec_config),
        data: span_if(g.present, p.gain_map_data),
    }
}

// The record that a header gives, with its chunks from the byte `at` on.
#[tactic(auto, unfolding(mini::specs::Image::image_of))]
pub fn image_of(h: Header, at: usize) -> MinimizedImage
    requires { at + sum (stored_sizes h.sizes) ≤ 18446744073709551615 }
    ensures { result ≡ image_of h at }
{
    let f = h.flags;
    let m = h.main;
    let p = spans_of(h.sizes, at);
    MinimizedImage {
        explicit_codec_types: m.explicit_codec_types,
        format: m.format,
        full_range: f.full_range,
        chroma: m.chroma,
        orientation: f.orientation,
        width: h.dimensions.width,
        height: h.dimensions.height,
        explicit_cicp: m.explicit_cicp,
        icc: f.icc.then_some(p.icc),
        alpha: f.alpha,
        alpha_premultiplied: m.alpha_premultiplied,
        hdr: f.hdr,
        hdr_boxes: h.hdr_boxes,
        has_gain_map: h.gain_map.present,
        gain_map: gain_map_of(h.gain_map, h.tmap_hdr, p),
        main_codec_config: p.main_codec_config,
        main_data: p.main_data,
        alpha_codec_config: (0 < p.alpha_codec_config.len).then_some(p.alpha_codec_config),
        alpha_data: p.alpha_data,
        exif_xmp_compressed: h.sizes.exif_xmp_compressed,
        exif: f.exif.then_some(p.exif),
        xmp: f.xmp.then_some(p.xmp),
    }
}

// The refusal of a header whose chunks begin at the byte boundary `at`, where one of them ends past the payload: no header has more than 2,014 bits.
pub fn chunk_past_end(at: BitPos, payload: &[u8], h: Header) -> Option<ReadError>
    requires sizes_bound { sum (stored_sizes h.sizes) ≤ 2952790016 }
    requires at_bound { bit_index at ≤ 2014 }
    ensures { reading_with result (image_of h (bit_index at / 8)) ≡ read_chunks payload.now h (clean (bit_index at)) }
{
    let start = at.byte();
    if payload.len() < start + chunks_len(h.sizes) {
        let past = first_past(payload.len(), start, &stored_sizes(h.sizes));
        return Some(ReadError {
            kind: ReadErrorKind::ChunkPastEnd,
            bit: 8 * past,
        });
    }
    None
}

// The record of such a header.
pub fn read_chunks(at: BitPos, payload: &[u8], h: Header) -> Result<MinimizedImage, ReadError>
    requires sizes_bound { sum (stored_sizes h.sizes) ≤ 2952790016 }
    requires at_bound { bit_index at ≤ 2014 }
    ensures { reading_of result ≡ read_chunks payload.now h (clean (bit_index at)) }
{
    match chunk_past_end(at, payload, h) {
        Some(error) => Err(error),
        None => Ok(image_of(h, at.byte())),
    }
}

// The same after any state, which may stand at any place and have met a refusal of any number: the record, or the number of the refusal. Of its bit
// it says nothing, since a place may be too far on for a bit to be counted.
pub fn read_chunks_after(b: Bits, payload: &[u8], h: Header) -> Result<MinimizedImage, u8>
    requires sizes_bound { sum (stored_sizes h.sizes) ≤ 2952790016 }
    requires refusal_bound { b.refusal ≤ 9 }
    ensures reading { number_and_record result ≡ without_bit (read_chunks payload.now h (state b)) }
    ensures not_zero { IfErr result (λ n. n ≡ 0 → ⊥) }
{
    if b.refusal != 0 {
        return Err(b.refusal as u8);
    }
    let BitPos(bytes, bits) = b.at;
    let over = bits / 8;
    if payload.len() < bytes || payload.len() - bytes < over + chunks_len(h.sizes) {
        return Err(ReadErrorKind::ChunkPastEnd as u8);
    }
    Ok(image_of(h, bytes + over))
}
