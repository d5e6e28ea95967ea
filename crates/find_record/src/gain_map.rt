// The gain map of the record found.
ghost use Rattle.std.specs.Prelude.{◌≡◌};
ghost use Rattle.carried.specs.ReadFile.{slots_in};
ghost use Rattle.items.specs.ItemBytes.{ItemBytes};
ghost use Rattle.normal_form.specs.NormalForm.{plain_own};
ghost use Rattle.normal_form.specs.ReadRecord.{own_fields_in};
ghost use Rattle.found.specs.Found.{found_record};
ghost use Rattle.find_record.specs.Holds.{Holds};

use crate::bodies::{chroma_in, format_in, range_in, size_in};
use crate::chunks::{config_in, placed, placed_after, profile_in};
use crate::held::Held;
use crate::ipco::slot_body;
use crate::numbers::byte;
use crate::picture::{hdr_in, tone_in};
use items::ItemSet;
use mini::{MiniGainMap, SampleFormat, Size};
use octets::part;

// A gain map without an item has the main picture's size.
fn plain_own(size: Size) -> MiniGainMap
    ensures { result ≡ plain_own size.width size.height }
{
    MiniGainMap {
        width: size.width,
        height: size.height,
        format: SampleFormat::Integer { bits: 8 },
        ..MiniGainMap::default()
    }
}

// Its own size, matrix, range, chroma and format.
fn own_fields_in(ipco: &[u8], items: ItemSet) -> MiniGainMap
    ensures { (b : ItemBytes) → result ≡ own_fields_in (record { items = items; slots = slots_in ipco.now; bytes = b }) }
{
    if !items.gain_map {
        return plain_own(size_in(slot_body(ipco, 2)));
    }
    let size = size_in(slot_body(ipco, 18));
    let pixi = slot_body(ipco, 19);
    let nclx = slot_body(ipco, 20);
    MiniGainMap {
        width: size.width,
        height: size.height,
        matrix_coefficients: byte(nclx, 9),
        full_range: range_in(nclx),
        chroma: chroma_in(pixi),
        format: format_in(pixi),
        ..MiniGainMap::default()
    }
}

// Blank where there is no tone map.
#[tactic(auto, using(crate::proofs::PlaceLaws::length_part), unfolding(found::specs::Found::found_record, normal_form::specs::ReadRecord::record_in, carried::specs::ReadFile::carried_in))]
pub fn gain_map_in(file: &[u8], held: Held) -> MiniGainMap
    requires { Holds file.now held }
    ensures { result ≡ (found_record file.now).gain_map }
{
    if !held.items.tone_map {
        return MiniGainMap::default();
    }
    let ipco = part(file, held.ipco);
    MiniGainMap {
        tmap_cicp: tone_in(ipco),
        tmap_icc: profile_in(ipco, held.ipco.at, 23),
        tmap_hdr: hdr_in(ipco, 24),
        metadata: placed_after(held.tone_map, 1),
        codec_config: config_in(ipco, held.ipco.at, 17),
        data: placed(held.gain_map),
        ..own_fields_in(ipco, held.items)
    }
}
