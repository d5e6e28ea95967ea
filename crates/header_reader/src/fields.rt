// The header up to the HDR part. A part whose flag is not set is not read: the state stays as it is.
ghost use Rattle.std.specs.Prelude.{◌≡◌, ◌+◌, ◌^◌, ◌<◌};
ghost use Rattle.bits.specs.Format.{choose, offset, number};
ghost use Rattle.bits.specs.Run.{state, Run};
ghost use Rattle.header_reader.specs.Rules.{colour_from};
ghost use Rattle.mini.specs.Views.{cicp_fields};
ghost use Rattle.mini.specs.Syntax.{flags, dimensions, chroma, float_format, integer_format, sample_format, explicit_cicp, explicit_codec_types, main_format};

use bits::{Bits, ReadErrorKind};
use mini::{Cicp, CodecTypes, DIMENSION, Dimensions, Flags, MainFormat, MiniChroma, SampleFormat};

pub fn read_flags(b: Bits, payload: &[u8]) -> (Flags, Bits)
    ensures { Run flags payload.now (state b) result.0 (state result.1) }
{
    let start = b.at;
    let (version, b) = b.read(payload, 2);
    let b = b.test(start, version == 0, ReadErrorKind::Version);
    let (explicit_codec_types, b) = b.flag(payload);
    let (float, b) = b.flag(payload);
    let (full_range, b) = b.flag(payload);
    let (alpha, b) = b.flag(payload);
    let (explicit_cicp, b) = b.flag(payload);
    let (hdr, b) = b.flag(payload);
    let (icc, b) = b.flag(payload);
    let (exif, b) = b.flag(payload);
    let (xmp, b) = b.flag(payload);
    let (subsampling, b) = b.byte(payload, 2);
    let (orientation_minus1, b) = b.byte(payload, 3);
    let flags = Flags {
        explicit_codec_types,
        float,
        full_range,
        alpha,
        explicit_cicp,
        hdr,
        icc,
        exif,
        xmp,
        subsampling,
        orientation: orientation_minus1 + 1,
    };
    (flags, b)
}

// `as`, here and in gain_map.rt and sizes.rt: no `From` goes to a narrower number.
pub fn read_dimensions(b: Bits, payload: &[u8]) -> (Dimensions, Bits)
    ensures { Run dimensions payload.now (state b) result.0 (state result.1) }
{
    let (large, b) = b.flag(payload);
    let (width, b) = b.minus1_if(payload, true, large, DIMENSION);
    let (height, b) = b.minus1_if(payload, true, large, DIMENSION);
    let dimensions = Dimensions {
        large,
        width: width as u32,
        height: height as u32,
    };
    (dimensions, b)
}

// `|`, not `||` or `matches!`, which to the prover are branches with goals of their own; so with `&` and `|` in sizes.rt.
pub fn read_chroma(b: Bits, payload: &[u8], subsampling: u8) -> (MiniChroma, Bits)
    ensures { Run (chroma subsampling) payload.now (state b) result.0 (state result.1) }
{
    let (horizontally_centered, b) = b.flag_if(payload, (subsampling == 1) | (subsampling == 2));
    let (vertically_centered, b) = b.flag_if(payload, subsampling == 1);
    let chroma = MiniChroma {
        subsampling,
        horizontally_centered,
        vertically_centered,
    };
    (chroma, b)
}

// The bits of a float, by bit_depth_log2_minus4.
fn float_bits(code: u8) -> u8
    requires { code < 4 }
    ensures { result ≡ 2 ^ (code + 4) }
{
    16 << code
}

fn read_float(b: Bits, payload: &[u8]) -> (SampleFormat, Bits)
    ensures { Run float_format payload.now (state b) result.0 (state result.1) }
{
    let start = b.at;
    let (code, b) = b.byte(payload, 2);
    let bits = float_bits(code);
    (
        SampleFormat::Float { bits },
        b.test(start, code < 3, ReadErrorKind::FloatDepth),
    )
}

// The bits of an integer sample: 9 and more, or 8.
fn read_depth(b: Bits, payload: &[u8], high: bool) -> (u8, Bits)
    ensures { Run (choose high (offset 9 3) (number 8)) payload.now (state b) result.0 (state result.1) }
{
    if high {
        let (bits_minus9, b) = b.byte(payload, 3);
        (bits_minus9 + 9, b)
    } else {
        (8, b)
    }
}

fn read_integer(b: Bits, payload: &[u8]) -> (SampleFormat, Bits)
    ensures { Run integer_format payload.now (state b) result.0 (state result.1) }
{
    let (high, b) = b.flag(payload);
    let (bits, b) = read_depth(b, payload, high);
    (SampleFormat::Integer { bits }, b)
}

#[tactic(auto, unfolding(mini::specs::Syntax::sample_format))]
pub fn read_format(b: Bits, payload: &[u8], float: bool) -> (SampleFormat, Bits)
    ensures { Run (sample_format float) payload.now (state b) result.0 (state result.1) }
{
    if float {
        read_float(b, payload)
    } else {
        read_integer(b, payload)
    }
}

pub fn read_colour(b: Bits, payload: &[u8]) -> (Cicp, Bits)
    ensures { Run cicp_fields payload.now (state b) (colour_from result.0) (state result.1) }
{
    let (primaries, b) = b.byte(payload, 8);
    let (transfer, b) = b.byte(payload, 8);
    let (matrix, b) = b.byte(payload, 8);
    let cicp = Cicp {
        primaries,
        transfer,
        matrix,
    };
    (cicp, b)
}

#[tactic(auto, unfolding(mini::specs::Syntax::explicit_cicp))]
pub fn read_cicp(b: Bits, payload: &[u8], on: bool) -> (Option<Cicp>, Bits)
    ensures { Run (explicit_cicp on) payload.now (state b) result.0 (state result.1) }
{
    if on {
        let (cicp, b) = read_colour(b, payload);
        (Some(cicp), b)
    } else {
        (None, b)
    }
}

#[tactic(auto, unfolding(mini::specs::Syntax::explicit_codec_types))]
pub fn read_types(b: Bits, payload: &[u8], on: bool) -> (Option<CodecTypes>, Bits)
    ensures { Run (explicit_codec_types on) payload.now (state b) result.0 (state result.1) }
{
    if on {
        let (infe_type, b) = b.read(payload, 32);
        let (codec_config_type, b) = b.read(payload, 32);
        let types = CodecTypes {
            infe_type,
            codec_config_type,
        };
        (Some(types), b)
    } else {
        (None, b)
    }
}

pub fn read_main_format(b: Bits, payload: &[u8], f: Flags) -> (MainFormat, Bits)
    ensures { Run (main_format f) payload.now (state b) result.0 (state result.1) }
{
    let (chroma, b) = read_chroma(b, payload, f.subsampling);
    let (format, b) = read_format(b, payload, f.float);
    let (alpha_premultiplied, b) = b.flag_if(payload, f.alpha);
    let (explicit_cicp, b) = read_cicp(b, payload, f.explicit_cicp);
    let (explicit_codec_types, b) = read_types(b, payload, f.explicit_codec_types);
    let main = MainFormat {
        chroma,
        format,
        alpha_premultiplied,
        explicit_cicp,
        explicit_codec_types,
    };
    (main, b)
}
