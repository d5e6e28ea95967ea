// The header of a record, in its narrowest forms: what `MinimizedImage::to_box` of mini.rs decides before it writes. Functions and no `From`, since
// record and header are types of mini.
#![tactic(auto)]

ghost use Rattle.std.specs.Prelude.{◌≡◌, ◌-◌, ◌^◌, ltb};
ghost use Rattle.std.specs.List.{list_any};
ghost use Rattle.mini.specs.Write.{header_of, not_empty};

use bits::Widths;
use mini::{
    CODEC_CONFIG, Chunk, ChunkSizes, DIMENSION, Dimensions, Flags, GainMapHeader, Header,
    ITEM_DATA, METADATA, MainFormat, MinimizedImage, chunk_len,
};

// Whether a chunk has bytes, if it is there.
pub fn not_empty(c: Chunk) -> bool
    ensures { result ≡ not_empty c }
{
    c.is_none_or(|x| 0 < x.len)
}

// A number as it is stored in a field that holds one less.
fn less1(n: usize) -> usize
    ensures { result ≡ n - 1 }
{
    n.saturating_sub(1)
}

// Whether one of the numbers, as they are stored, takes the long form of its field.
fn any_long(widths: Widths, stored: &[usize]) -> bool
    ensures { result ≡ list_any (ltb (2 ^ widths.short - 1)) stored.now }
{
    stored.iter().any(|&n| 1 << widths.short <= n)
}

#[tactic(auto, unfolding(mini::specs::Write::header_of, mini::specs::Write::header_with))]
fn flags_of(i: MinimizedImage) -> Flags
    ensures { result ≡ (header_of i).flags }
{
    Flags {
        explicit_codec_types: i.explicit_codec_types.is_some(),
        float: i.format.is_float(),
        full_range: i.full_range,
        alpha: i.alpha,
        explicit_cicp: i.explicit_cicp.is_some(),
        hdr: i.hdr,
        icc: i.icc.is_some(),
        exif: i.exif.is_some(),
        xmp: i.xmp.is_some(),
        subsampling: i.chroma.subsampling,
        orientation: i.orientation,
    }
}

// By `as`: no `From` leads from u32 to usize.
#[tactic(auto, unfolding(mini::specs::Write::header_of, mini::specs::Write::header_with, mini::specs::Write::least))]
fn dimensions_of(i: MinimizedImage) -> Dimensions
    ensures { result ≡ (header_of i).dimensions }
{
    let g = i.gain_map;
    Dimensions {
        large: any_long(
            DIMENSION,
            &[
                less1(i.width as usize),
                less1(i.height as usize),
                less1(g.width as usize),
                less1(g.height as usize),
            ],
        ),
        width: i.width,
        height: i.height,
    }
}

#[tactic(auto, unfolding(mini::specs::Write::header_of, mini::specs::Write::header_with))]
fn main_format_of(i: MinimizedImage) -> MainFormat
    ensures { result ≡ (header_of i).main }
{
    MainFormat {
        chroma: i.chroma,
        format: i.format,
        alpha_premultiplied: i.alpha_premultiplied,
        explicit_cicp: i.explicit_cicp,
        explicit_codec_types: i.explicit_codec_types,
    }
}

#[tactic(auto, unfolding(mini::specs::Write::header_of, mini::specs::Write::header_with, mini::specs::Write::least))]
fn gain_map_header_of(i: MinimizedImage) -> GainMapHeader
    ensures { result ≡ (header_of i).gain_map }
{
    let g = i.gain_map;
    GainMapHeader {
        present: i.has_gain_map,
        same_dimensions: i.has_gain_map && g.width == i.width && g.height == i.height,
        width: g.width,
        height: g.height,
        matrix_coefficients: g.matrix_coefficients,
        full_range: g.full_range,
        subsampling: g.chroma.subsampling,
        chroma: g.chroma,
        float: g.format.is_float(),
        format: g.format,
        tmap_icc: g.tmap_icc.is_some(),
        tmap_explicit_cicp: g.tmap_cicp.is_some(),
        tmap_cicp: g.tmap_cicp,
    }
}

#[tactic(auto, unfolding(mini::specs::Write::header_of, mini::specs::Write::header_with, mini::specs::Write::least), using(crate::proofs::Stored::long_forms))]
fn sizes_of(i: MinimizedImage) -> ChunkSizes
    ensures { result ≡ (header_of i).sizes }
{
    let g = i.gain_map;
    let icc = chunk_len(i.icc);
    let tmap_icc = chunk_len(g.tmap_icc);
    let gain_map_codec_config = chunk_len(g.codec_config);
    let alpha_codec_config = chunk_len(i.alpha_codec_config);
    let exif = chunk_len(i.exif);
    let xmp = chunk_len(i.xmp);
    ChunkSizes {
        large_metadata: any_long(
            METADATA,
            &[
                less1(icc),
                less1(tmap_icc),
                g.metadata.len,
                less1(exif),
                less1(xmp),
            ],
        ),
        large_codec_config: any_long(
            CODEC_CONFIG,
            &[
                i.main_codec_config.len,
                alpha_codec_config,
                gain_map_codec_config,
            ],
        ),
        large_item_data: any_long(
            ITEM_DATA,
            &[less1(i.main_data.len), i.alpha_data.len, g.data.len],
        ),
        icc,
        tmap_icc,
        gain_map_metadata: g.metadata.len,
        gain_map_data: g.data.len,
        gain_map_codec_config,
        main_codec_config: i.main_codec_config.len,
        main_data: i.main_data.len,
        alpha_data: i.alpha_data.len,
        alpha_codec_config,
        exif_xmp_compressed: i.exif_xmp_compressed,
        exif,
        xmp,
    }
}

#[tactic(auto, unfolding(mini::specs::Write::header_of, mini::specs::Write::header_with))]
pub fn header_of(i: MinimizedImage) -> Header
    ensures { result ≡ header_of i }
{
    Header {
        flags: flags_of(i),
        dimensions: dimensions_of(i),
        main: main_format_of(i),
        gain_map: gain_map_header_of(i),
        hdr_boxes: i.hdr_boxes,
        tmap_hdr: i.gain_map.tmap_hdr,
        sizes: sizes_of(i),
    }
}
