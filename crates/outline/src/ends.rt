// Where the parts of the header end.
ghost use Rattle.std.specs.Prelude.{◌≡◌, ◌+◌, ◌≤◌, length};
ghost use Rattle.octets.specs.BigEndian.{be};
ghost use Rattle.octets.specs.Overwrite.{Wrote};
ghost use Rattle.bits.specs.Run.{state};
ghost use Rattle.outline.specs.Ends.{part_states, places, states};
ghost use Rattle.outline.specs.OutlineBytes.{place_bytes};

use bits::{BitPos, Bits};
use header_reader::fields::{
    read_chroma, read_cicp, read_dimensions, read_flags, read_format, read_types,
};
use header_reader::gain_map::read_gain_map_header_if;
use header_reader::hdr_boxes::read_hdr_boxes_if;
use header_reader::sizes::{read_sizes, read_trailing_bits};
use octets::put;

// The state after each part, by name: each part is read in its own way.
pub fn read_ends(payload: &[u8]) -> [Bits; 12]
    ensures { states result ≡ part_states payload.now }
{
    let (f, flags) = read_flags(Bits::new(), payload);
    let (d, dimensions) = read_dimensions(flags, payload);
    let (_, chroma) = read_chroma(dimensions, payload, f.subsampling);
    let (_, format) = read_format(chroma, payload, f.float);
    let (_, premultiplied) = format.flag_if(payload, f.alpha);
    let (_, cicp) = read_cicp(premultiplied, payload, f.explicit_cicp);
    let (_, codec_types) = read_types(cicp, payload, f.explicit_codec_types);
    let (g, gain_map) = read_gain_map_header_if(codec_types, payload, f.hdr, d);
    let (_, hdr_boxes) = read_hdr_boxes_if(gain_map, payload, f.hdr);
    let (_, tmap_hdr) = read_hdr_boxes_if(hdr_boxes, payload, g.present);
    let (_, sizes) = read_sizes(tmap_hdr, payload, f, g);
    let trailing = read_trailing_bits(sizes, payload);
    [
        flags,
        dimensions,
        chroma,
        format,
        premultiplied,
        cicp,
        codec_types,
        gain_map,
        hdr_boxes,
        tmap_hdr,
        sizes,
        trailing,
    ]
}

// The place of a state in bits, as eight bytes: of a number of more only the low eight, so that nothing is asked of the state. `as`, here
// and in lib.rt: no `From` goes from `usize` to 64 bits.
fn put_place(out: &mut [u8], at: usize, b: Bits) -> usize
    requires { at + 8 ≤ length out.old }
    ensures { Wrote out.old at 8 (be 8 (state b).at) out.new result }
{
    let BitPos(byte, bit) = b.at;
    put::<8>(out, at, byte.wrapping_mul(8).wrapping_add(bit) as u64)
}

pub fn put_ends(out: &mut [u8], at: usize, ends: &[Bits; 12]) -> usize
    requires { at + 96 ≤ length out.old }
    ensures { Wrote out.old at 96 (place_bytes (places (states ends.now))) out.new result }
{
    let mut at = at;
    for &b in ends {
        at = put_place(out, at, b);
    }
    at
}
