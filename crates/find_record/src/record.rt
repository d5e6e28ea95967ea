// The record found in a file.
ghost use Rattle.std.specs.Prelude.{◌≡◌};
ghost use Rattle.found.specs.Found.{found_record};
ghost use Rattle.find_record.specs.Holds.{Holds};

use crate::bodies::{chroma_in, format_in, range_in, size_in};
use crate::chunks::{config_in, item_chunk, main_config, placed, profile_in};
use crate::gain_map::gain_map_in;
use crate::held::{Held, held_of};
use crate::ipco::slot_body;
use crate::picture::{config_type_in, has_body, hdr_in, orientation_in, triple_in};
use mini::{CodecTypes, MinimizedImage};
use octets::part;

// The same, from what the file holds.
#[tactic(auto, using(crate::proofs::PlaceLaws::length_part))]
fn record_in(file: &[u8], held: Held) -> MinimizedImage
    requires { Holds file.now held }
    ensures { result ≡ found_record file.now }
{
    let ipco = part(file, held.ipco);
    let size = size_in(slot_body(ipco, 2));
    let pixi = slot_body(ipco, 3);
    let hdr_boxes = hdr_in(ipco, 11);
    MinimizedImage {
        explicit_codec_types: Some(CodecTypes {
            infe_type: held.items.item_type,
            codec_config_type: config_type_in(ipco),
        }),
        format: format_in(pixi),
        full_range: range_in(slot_body(ipco, 4)),
        chroma: chroma_in(pixi),
        orientation: orientation_in(ipco),
        width: size.width,
        height: size.height,
        explicit_cicp: triple_in(ipco),
        icc: profile_in(ipco, held.ipco.at, 5),
        alpha: held.items.alpha,
        alpha_premultiplied: held.items.premultiplied,
        hdr: held.items.tone_map | has_body(hdr_boxes),
        hdr_boxes,
        has_gain_map: held.items.tone_map,
        gain_map: gain_map_in(file, held),
        main_codec_config: main_config(ipco, held.ipco.at),
        main_data: placed(held.main),
        alpha_codec_config: config_in(ipco, held.ipco.at, 6),
        alpha_data: placed(held.alpha),
        exif_xmp_compressed: held.items.compressed,
        exif: item_chunk(held.items.exif, held.exif),
        xmp: item_chunk(held.items.xmp, held.xmp),
    }
}

// The normal form that is read from the file, with its chunks where the file holds their bytes.
pub fn found_record(file: &[u8]) -> MinimizedImage
    ensures { result ≡ found_record file.now }
{
    record_in(file, held_of(file))
}
