// The gain map's part of the header, before the HDR boxes.
ghost use Rattle.std.specs.Prelude.{true};
ghost use Rattle.bits.specs.Run.{state, Run};
ghost use Rattle.mini.specs.Syntax.{tmap_cicp, gain_map_dimension, gain_map_format, gain_map_header};

use crate::fields::{read_chroma, read_colour, read_format};
use bits::Bits;
use mini::{DIMENSION, Dimensions, GainMapHeader, SampleFormat, TmapCicp};

// Where the flag is not set nothing is read, here and below, and in fields.rt and hdr_boxes.rt. Each such part is a format of its own, so it says so
// itself: with one function for all, each call would have to name the format.
#[tactic(auto, unfolding(mini::specs::Syntax::tmap_cicp))]
fn read_tmap_cicp(b: Bits, payload: &[u8], on: bool) -> (Option<TmapCicp>, Bits)
    ensures { Run (tmap_cicp on) payload.now (state b) result.0 (state result.1) }
{
    if on {
        let (cicp, b) = read_colour(b, payload);
        let (full_range, b) = b.flag(payload);
        (Some(TmapCicp { cicp, full_range }), b)
    } else {
        (None, b)
    }
}

// A dimension: the main picture's where the flag says so. Besides state and payload it takes what the format takes: of a `Dimensions` it would have
// to be told which of the two it reads.
#[tactic(auto, unfolding(mini::specs::Syntax::gain_map_dimension))]
fn read_dimension(
    b: Bits,
    payload: &[u8],
    present: bool,
    same: bool,
    large: bool,
    main: u32,
) -> (u32, Bits)
    ensures { Run (gain_map_dimension present same large main) payload.now (state b) result.0 (state result.1) }
{
    match (present, same) {
        (true, true) => (main, b),
        (true, false) => {
            let (dimension, b) = b.minus1_if(payload, true, large, DIMENSION);
            (dimension as u32, b)
        }
        (false, _) => (0, b),
    }
}

#[tactic(auto, unfolding(mini::specs::Syntax::gain_map_format))]
fn read_format_if(b: Bits, payload: &[u8], present: bool, float: bool) -> (SampleFormat, Bits)
    ensures { Run (gain_map_format present float) payload.now (state b) result.0 (state result.1) }
{
    if present {
        read_format(b, payload, float)
    } else {
        (SampleFormat::default(), b)
    }
}

pub fn read_gain_map_header(b: Bits, payload: &[u8], d: Dimensions) -> (GainMapHeader, Bits)
    ensures { Run (gain_map_header true d) payload.now (state b) result.0 (state result.1) }
{
    let (present, b) = b.flag(payload);
    let (same_dimensions, b) = b.flag_if(payload, present);
    let (width, b) = read_dimension(b, payload, present, same_dimensions, d.large, d.width);
    let (height, b) = read_dimension(b, payload, present, same_dimensions, d.large, d.height);
    let (matrix_coefficients, b) = b.byte_if(payload, present, 8);
    let (full_range, b) = b.flag_if(payload, present);
    let (subsampling, b) = b.byte_if(payload, present, 2);
    let (chroma, b) = read_chroma(b, payload, subsampling);
    let (float, b) = b.flag_if(payload, present);
    let (format, b) = read_format_if(b, payload, present, float);
    let (tmap_icc, b) = b.flag_if(payload, present);
    let (tmap_explicit_cicp, b) = b.flag_if(payload, present);
    let (tmap_cicp, b) = read_tmap_cicp(b, payload, tmap_explicit_cicp);
    let header = GainMapHeader {
        present,
        same_dimensions,
        width,
        height,
        matrix_coefficients,
        full_range,
        subsampling,
        chroma,
        float,
        format,
        tmap_icc,
        tmap_explicit_cicp,
        tmap_cicp,
    };
    (header, b)
}

#[tactic(auto, using(crate::specs::Rules::run_no_gain_map))]
pub fn read_gain_map_header_if(
    b: Bits,
    payload: &[u8],
    hdr: bool,
    d: Dimensions,
) -> (GainMapHeader, Bits)
    ensures { Run (gain_map_header hdr d) payload.now (state b) result.0 (state result.1) }
{
    if hdr {
        read_gain_map_header(b, payload, d)
    } else {
        (GainMapHeader::default(), b)
    }
}
