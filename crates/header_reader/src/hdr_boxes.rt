// The HDR bodies of one picture.
ghost use Rattle.std.specs.Prelude.{true};
ghost use Rattle.bits.specs.Run.{state, Run};
ghost use Rattle.mini.specs.Syntax.{cclv, cclv_for, hdr_boxes};

use bits::Bits;
use mini::{MiniHdrBoxes, cclv_more};

fn read_cclv(b: Bits, payload: &[u8]) -> ([u8; 37], Bits)
    ensures { Run cclv payload.now (state b) result.0 (state result.1) }
{
    let (first, b) = b.byte(payload, 8);
    b.body37_after(payload, first, cclv_more(first))
}

#[tactic(auto, unfolding(mini::specs::Syntax::cclv_for))]
fn read_cclv_if(b: Bits, payload: &[u8], on: bool) -> ([u8; 37], Bits)
    ensures { Run (cclv_for on) payload.now (state b) result.0 (state result.1) }
{
    if on {
        read_cclv(b, payload)
    } else {
        ([0; 37], b)
    }
}

pub fn read_hdr_boxes(b: Bits, payload: &[u8]) -> (MiniHdrBoxes, Bits)
    ensures { Run (hdr_boxes true) payload.now (state b) result.0 (state result.1) }
{
    let (has_clli, b) = b.flag(payload);
    let (has_mdcv, b) = b.flag(payload);
    let (has_cclv, b) = b.flag(payload);
    let (has_amve, b) = b.flag(payload);
    let (has_reve, b) = b.flag(payload);
    let (has_ndwt, b) = b.flag(payload);
    let (clli, b) = b.body_if(payload, has_clli);
    let (mdcv, b) = b.body_if(payload, has_mdcv);
    let (cclv, b) = read_cclv_if(b, payload, has_cclv);
    let (amve, b) = b.body_if(payload, has_amve);
    let (reve, b) = b.body_if(payload, has_reve);
    let (ndwt, b) = b.body_if(payload, has_ndwt);
    let boxes = MiniHdrBoxes {
        has_clli,
        has_mdcv,
        has_cclv,
        has_amve,
        has_reve,
        has_ndwt,
        clli,
        mdcv,
        cclv,
        amve,
        reve,
        ndwt,
    };
    (boxes, b)
}

#[tactic(auto, using(crate::specs::Rules::run_no_hdr_boxes))]
pub fn read_hdr_boxes_if(b: Bits, payload: &[u8], on: bool) -> (MiniHdrBoxes, Bits)
    ensures { Run (hdr_boxes on) payload.now (state b) result.0 (state result.1) }
{
    if on {
        read_hdr_boxes(b, payload)
    } else {
        (MiniHdrBoxes::default(), b)
    }
}
