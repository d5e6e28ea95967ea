// The header's bits, group by group as mini's Syntax has them. Once a value is one that no header holds, the writer's state says so; where one
// is absent though its flag is set, zeros are written. Numbers are widened by `as`, which computes in a proof; each group's proof would have to
// carry the result of a `from`. `&` and `|` as in header_reader (fields.rt).
ghost use Rattle.std.specs.Prelude.{◌≡◌};
ghost use Rattle.bits.specs.Format.{choose, offset, number};
ghost use Rattle.bit_writer.specs.Writer.{Puts};
ghost use Rattle.mini.specs.declared.SampleFormat.TheVariants.{Integer};
ghost use Rattle.mini.specs.Syntax.{flags, dimensions, chroma, float_format, integer_format, sample_format, explicit_cicp, explicit_codec_types, main_format, tmap_cicp, gain_map_dimension, gain_map_format, gain_map_header, cclv_for, hdr_boxes, chunk_sizes, header};
ghost use Rattle.mini.specs.Views.{cicp_fields, bits_in, is_format, float_to, float_code};

use bit_writer::{BitWriter, all_zero};
use mini::{
    CODEC_CONFIG, ChunkSizes, Cicp, CodecTypes, DIMENSION, Dimensions, Flags, GainMapHeader,
    Header, ITEM_DATA, METADATA, MainFormat, MiniChroma, MiniHdrBoxes, SampleFormat, TmapCicp,
};

pub fn put_flags(w: BitWriter, out: &mut [u8], f: Flags) -> BitWriter
    ensures { Puts flags out.old w f out.new result }
{
    w.put(out, 2, 0)
        .flag(out, f.explicit_codec_types)
        .flag(out, f.float)
        .flag(out, f.full_range)
        .flag(out, f.alpha)
        .flag(out, f.explicit_cicp)
        .flag(out, f.hdr)
        .flag(out, f.icc)
        .flag(out, f.exif)
        .flag(out, f.xmp)
        .put(out, 2, f.subsampling as usize)
        .put_offset(out, 1, 3, f.orientation as usize)
}

pub fn put_dimensions(w: BitWriter, out: &mut [u8], d: Dimensions) -> BitWriter
    ensures { Puts dimensions out.old w d out.new result }
{
    w.flag(out, d.large)
        .minus1_if(out, true, d.large, DIMENSION, d.width as usize)
        .minus1_if(out, true, d.large, DIMENSION, d.height as usize)
}

pub fn put_chroma(w: BitWriter, out: &mut [u8], subsampling: u8, c: MiniChroma) -> BitWriter
    ensures { Puts (chroma subsampling) out.old w c out.new result }
{
    let both = subsampling == 1;
    w.flag_if(out, both | (subsampling == 2), c.horizontally_centered)
        .flag_if(out, both, c.vertically_centered)
        .test(subsampling == c.subsampling)
}

// The code of a float's depth: 16, 32 or 64 bits. No logarithm: the definition has 2 for any other depth too.
#[tactic(auto, unfolding(mini::specs::Views::float_code))]
fn float_code(bits: u8) -> u8
    ensures { result ≡ float_code bits }
{
    match bits {
        16 => 0,
        32 => 1,
        _ => 2,
    }
}

// Whether it is a float of one of these depths.
#[tactic(auto, unfolding(mini::specs::Views::float_code))]
fn has_float_code(f: SampleFormat) -> bool
    ensures { result ≡ is_format (float_to (float_code (bits_in f))) f }
{
    matches!(f, SampleFormat::Float { bits: 16 | 32 | 64 })
}

fn put_float_format(w: BitWriter, out: &mut [u8], f: SampleFormat) -> BitWriter
    ensures { Puts float_format out.old w f out.new result }
{
    let code = float_code(f.bits());
    w.put(out, 2, code as usize)
        .test(code < 3)
        .test(has_float_code(f))
}

// Where the flag is not set there is only a test. Here and below each such part is a format of its own, so it says so itself: with one function for
// all, each call would have to name the format.
#[tactic(auto, using(bit_writer::specs::WriterLaws::formats))]
fn put_depth(w: BitWriter, out: &mut [u8], high: bool, bits: u8) -> BitWriter
    ensures { Puts (choose high (offset 9 3) (number 8)) out.old w bits out.new result }
{
    if high {
        w.put_offset(out, 9, 3, bits as usize)
    } else {
        w.test(bits == 8)
    }
}

fn put_integer_format(w: BitWriter, out: &mut [u8], f: SampleFormat) -> BitWriter
    ensures { Puts integer_format out.old w f out.new result }
{
    let bits = f.bits();
    let high = bits != 8;
    let w = w.flag(out, high);
    put_depth(w, out, high, bits).test(!f.is_float())
}

#[tactic(auto, using(bit_writer::specs::WriterLaws::formats), unfolding(mini::specs::Syntax::sample_format))]
pub fn put_sample_format(w: BitWriter, out: &mut [u8], float: bool, f: SampleFormat) -> BitWriter
    ensures { Puts (sample_format float) out.old w f out.new result }
{
    if float {
        put_float_format(w, out, f)
    } else {
        put_integer_format(w, out, f)
    }
}

fn put_cicp(w: BitWriter, out: &mut [u8], c: Cicp) -> BitWriter
    ensures { Puts cicp_fields out.old w (c.primaries, (c.transfer, c.matrix)) out.new result }
{
    w.put(out, 8, c.primaries as usize)
        .put(out, 8, c.transfer as usize)
        .put(out, 8, c.matrix as usize)
}

#[tactic(auto, using(bit_writer::specs::WriterLaws::formats, crate::proofs::Optional::not_of), unfolding(mini::specs::Syntax::explicit_cicp))]
pub fn put_explicit_cicp(w: BitWriter, out: &mut [u8], on: bool, c: Option<Cicp>) -> BitWriter
    ensures { Puts (explicit_cicp on) out.old w c out.new result }
{
    if on {
        put_cicp(w, out, c.unwrap_or_default()).test(c.is_some())
    } else {
        w.test(c.is_none())
    }
}

#[tactic(auto, using(bit_writer::specs::WriterLaws::formats, crate::proofs::Optional::not_of), unfolding(mini::specs::Syntax::explicit_codec_types))]
pub fn put_codec_types(w: BitWriter, out: &mut [u8], on: bool, c: Option<CodecTypes>) -> BitWriter
    ensures { Puts (explicit_codec_types on) out.old w c out.new result }
{
    if on {
        let f = c.unwrap_or_default();
        w.put(out, 32, f.infe_type as usize)
            .put(out, 32, f.codec_config_type as usize)
            .test(c.is_some())
    } else {
        w.test(c.is_none())
    }
}

pub fn put_main_format(w: BitWriter, out: &mut [u8], f: Flags, m: MainFormat) -> BitWriter
    ensures { Puts (main_format f) out.old w m out.new result }
{
    let w = put_chroma(w, out, f.subsampling, m.chroma);
    let w = put_sample_format(w, out, f.float, m.format);
    let w = w.flag_if(out, f.alpha, m.alpha_premultiplied);
    let w = put_explicit_cicp(w, out, f.explicit_cicp, m.explicit_cicp);
    put_codec_types(w, out, f.explicit_codec_types, m.explicit_codec_types)
}

#[tactic(auto, using(bit_writer::specs::WriterLaws::formats, crate::proofs::Optional::not_of), unfolding(mini::specs::Syntax::tmap_cicp))]
pub fn put_tmap_cicp(w: BitWriter, out: &mut [u8], on: bool, c: Option<TmapCicp>) -> BitWriter
    ensures { Puts (tmap_cicp on) out.old w c out.new result }
{
    if on {
        let f = c.unwrap_or_default();
        put_cicp(w, out, f.cicp)
            .flag(out, f.full_range)
            .test(c.is_some())
    } else {
        w.test(c.is_none())
    }
}

// A side of the gain map. The flags and the main picture's side are the parameters of its format, the same for width and height.
#[tactic(auto, using(bit_writer::specs::WriterLaws::formats), unfolding(mini::specs::Syntax::gain_map_dimension))]
fn put_gain_map_dimension(
    w: BitWriter,
    out: &mut [u8],
    has: bool,
    same: bool,
    large: bool,
    main: u32,
    v: u32,
) -> BitWriter
    ensures { Puts (gain_map_dimension has same large main) out.old w v out.new result }
{
    match (has, same) {
        (true, true) => w.test(v == main),
        (true, false) => w.minus1_if(out, true, large, DIMENSION, v as usize),
        (false, _) => w.test(v == 0),
    }
}

// No gain map: integers of 0 bits.
fn is_no_format(f: SampleFormat) -> bool
    ensures { result ≡ is_format f (Integer 0) }
{
    matches!(f, SampleFormat::Integer { bits: 0 })
}

#[tactic(auto, using(bit_writer::specs::WriterLaws::formats), unfolding(mini::specs::Syntax::gain_map_format))]
fn put_gain_map_format(
    w: BitWriter,
    out: &mut [u8],
    has: bool,
    float: bool,
    f: SampleFormat,
) -> BitWriter
    ensures { Puts (gain_map_format has float) out.old w f out.new result }
{
    if has {
        put_sample_format(w, out, float, f)
    } else {
        w.test(is_no_format(f))
    }
}

pub fn put_gain_map_header(
    w: BitWriter,
    out: &mut [u8],
    hdr: bool,
    d: Dimensions,
    g: GainMapHeader,
) -> BitWriter
    ensures { Puts (gain_map_header hdr d) out.old w g out.new result }
{
    let has = g.present;
    let w = w
        .flag_if(out, hdr, has)
        .flag_if(out, has, g.same_dimensions);
    let w = put_gain_map_dimension(w, out, has, g.same_dimensions, d.large, d.width, g.width);
    let w = put_gain_map_dimension(w, out, has, g.same_dimensions, d.large, d.height, g.height);
    let w = w
        .put_if(out, has, 8, g.matrix_coefficients as usize)
        .flag_if(out, has, g.full_range)
        .put_if(out, has, 2, g.subsampling as usize);
    let w = put_chroma(w, out, g.subsampling, g.chroma).flag_if(out, has, g.float);
    let w = put_gain_map_format(w, out, has, g.float, g.format)
        .flag_if(out, has, g.tmap_icc)
        .flag_if(out, has, g.tmap_explicit_cicp);
    put_tmap_cicp(w, out, g.tmap_explicit_cicp, g.tmap_cicp)
}

fn put_cclv(w: BitWriter, out: &mut [u8], on: bool, body: &[u8; 37]) -> BitWriter
    ensures { Puts (cclv_for on) out.old w body.now out.new result }
{
    if on {
        let n = mini::cclv_more(body[0]) + 1;
        w.bytes(out, &body[..n]).test(all_zero(&body[n..]))
    } else {
        w.test(all_zero(body))
    }
}

pub fn put_hdr_boxes(w: BitWriter, out: &mut [u8], on: bool, b: MiniHdrBoxes) -> BitWriter
    ensures { Puts (hdr_boxes on) out.old w b out.new result }
{
    let w = w
        .flag_if(out, on, b.has_clli)
        .flag_if(out, on, b.has_mdcv)
        .flag_if(out, on, b.has_cclv)
        .flag_if(out, on, b.has_amve)
        .flag_if(out, on, b.has_reve)
        .flag_if(out, on, b.has_ndwt)
        .body_if(out, b.has_clli, &b.clli)
        .body_if(out, b.has_mdcv, &b.mdcv);
    put_cclv(w, out, b.has_cclv, &b.cclv)
        .body_if(out, b.has_amve, &b.amve)
        .body_if(out, b.has_reve, &b.reve)
        .body_if(out, b.has_ndwt, &b.ndwt)
}

pub fn put_sizes(
    w: BitWriter,
    out: &mut [u8],
    f: Flags,
    g: GainMapHeader,
    z: ChunkSizes,
) -> BitWriter
    ensures { Puts (chunk_sizes f g) out.old w z out.new result }
{
    let has = g.present;
    let large = z.large_metadata;
    let large_config = z.large_codec_config;
    let large_data = z.large_item_data;
    let gain_map_coded = has & (0 < z.gain_map_data);
    let alpha_coded = f.alpha & (0 < z.alpha_data);
    w.flag_if(out, f.icc | f.exif | f.xmp | has, large)
        .flag(out, large_config)
        .flag(out, large_data)
        .minus1_if(out, f.icc, large, METADATA, z.icc)
        .minus1_if(out, has & g.tmap_icc, large, METADATA, z.tmap_icc)
        .size_if(out, has, large, METADATA, z.gain_map_metadata)
        .size_if(out, has, large_data, ITEM_DATA, z.gain_map_data)
        .size_if(
            out,
            gain_map_coded,
            large_config,
            CODEC_CONFIG,
            z.gain_map_codec_config,
        )
        .size_if(out, true, large_config, CODEC_CONFIG, z.main_codec_config)
        .minus1_if(out, true, large_data, ITEM_DATA, z.main_data)
        .size_if(out, f.alpha, large_data, ITEM_DATA, z.alpha_data)
        .size_if(
            out,
            alpha_coded,
            large_config,
            CODEC_CONFIG,
            z.alpha_codec_config,
        )
        .flag_if(out, f.exif | f.xmp, z.exif_xmp_compressed)
        .minus1_if(out, f.exif, large, METADATA, z.exif)
        .minus1_if(out, f.xmp, large, METADATA, z.xmp)
}

pub fn put_header(w: BitWriter, out: &mut [u8], h: Header) -> BitWriter
    ensures { Puts header out.old w h out.new result }
{
    let w = put_flags(w, out, h.flags);
    let w = put_dimensions(w, out, h.dimensions);
    let w = put_main_format(w, out, h.flags, h.main);
    let w = put_gain_map_header(w, out, h.flags.hdr, h.dimensions, h.gain_map);
    let w = put_hdr_boxes(w, out, h.flags.hdr, h.hdr_boxes);
    let w = put_hdr_boxes(w, out, h.gain_map.present, h.tmap_hdr);
    put_sizes(w, out, h.flags, h.gain_map, h.sizes)
}
