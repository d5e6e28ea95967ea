// The header of a MinimizedImageBox payload, read group by group: `MinimizedImage::parse` of mini.rs up to the chunks.
#![tactic(auto)]

ghost use Rattle.std.specs.Prelude.{◌≤◌};
ghost use Rattle.bits.specs.Run.{state, Run};
ghost use Rattle.mini.specs.Chunks.{stored_sizes};
ghost use Rattle.mini.specs.Cut.{sum};
ghost use Rattle.mini.specs.Syntax.{header};
ghost use Rattle.header_reader.specs.Rules.{hdr_part};

pub mod fields;
pub mod gain_map;
pub mod hdr_boxes;
pub mod sizes;

use bits::Bits;
use fields::{read_dimensions, read_flags, read_main_format};
use gain_map::read_gain_map_header;
use hdr_boxes::{read_hdr_boxes, read_hdr_boxes_if};
use mini::{Dimensions, GainMapHeader, Header, MiniHdrBoxes};
use sizes::read_sizes;

// What the HDR flag brings.
#[derive(Clone, Copy, Debug, PartialEq, Eq, Default)]
pub struct HdrPart {
    pub gain_map: GainMapHeader,
    pub hdr_boxes: MiniHdrBoxes,
    pub tmap_hdr: MiniHdrBoxes,
}

// One test for the whole part, since most pictures have none: with a test for each of the three, the smallest payload takes a fifth longer to read.
#[tactic(auto, using(crate::specs::Rules::run_no_hdr_part))]
fn read_hdr_part(b: Bits, payload: &[u8], hdr: bool, d: Dimensions) -> (HdrPart, Bits)
    ensures { Run (hdr_part hdr d) payload.now (state b) (result.0.gain_map, (result.0.hdr_boxes, result.0.tmap_hdr)) (state result.1) }
{
    if !hdr {
        return (HdrPart::default(), b);
    }
    let (gain_map, b) = read_gain_map_header(b, payload, d);
    let (hdr_boxes, b) = read_hdr_boxes(b, payload);
    let (tmap_hdr, b) = read_hdr_boxes_if(b, payload, gain_map.present);
    let part = HdrPart {
        gain_map,
        hdr_boxes,
        tmap_hdr,
    };
    (part, b)
}

pub fn read_header(b: Bits, payload: &[u8]) -> (Header, Bits)
    ensures run { Run header payload.now (state b) result.0 (state result.1) }
    ensures sizes_bound { sum (stored_sizes result.0.sizes) ≤ 2952790016 }
{
    let (flags, b) = read_flags(b, payload);
    let (dimensions, b) = read_dimensions(b, payload);
    let (main, b) = read_main_format(b, payload, flags);
    let (part, b) = read_hdr_part(b, payload, flags.hdr, dimensions);
    let (sizes, b) = read_sizes(b, payload, flags, part.gain_map);
    let header = Header {
        flags,
        dimensions,
        main,
        gain_map: part.gain_map,
        hdr_boxes: part.hdr_boxes,
        tmap_hdr: part.tmap_hdr,
        sizes,
    };
    (header, b)
}
