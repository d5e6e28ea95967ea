// The slots of 'ipco', compared one after another.
ghost use Rattle.std.specs.Prelude.{◌≡◌, List, ℕ, cond, Some, ◌≤◌, length};
ghost use Rattle.octets.specs.Part.{part_of};
ghost use Rattle.properties.specs.Property.{codec_config, prof, turn_box};
ghost use Rattle.slots.specs.Slots.{config_or, none, slot_bytes, slots_bytes, config_slot, prof_slot, turn_slot, hdr_slot, tmap_nclx_slot, slots};
ghost use Rattle.slots.specs.Sound.{SpanPlaced, ChunkPlaced, Bounded, Sound};
ghost use Rattle.matching.specs.Matched.{matched};
ghost use Rattle.file_match.specs.SlotOf.{property_box, slot_of, slots_of};

use crate::header::match_box_header;
use boxes::{FourCc, put_four_cc};
use matching::{match_part, match_written};
use mini::{
    Chunk, Cicp, CodecTypes, MiniChroma, MinimizedImage, SampleFormat, Size, Span, TmapCicp,
};
use octets::part;
use properties::hdr_boxes::HdrBox;
use properties::orientation::turns_of;
use properties::pixi::{put_alpha_pixi, put_pixi};
use properties::property::{COLR, IMIR, IROT, PROF, put_auxc, put_ispe, put_nclx, put_turn};
use slots::groups::{config_type, has_alpha_item, has_gain_map_item, hdr_boxes};
use slots::slot::{SRGB, has_tmap_nclx, put_free};

// What a slot holds. Bytes are a part of the file.
#[derive(Clone, Copy, Debug, PartialEq, Eq)]
pub enum Property {
    // A codec configuration, in a box of that type.
    Config(FourCc, Span),
    Ispe(Size),
    Pixi(SampleFormat, MiniChroma),
    AlphaPixi(SampleFormat),
    Nclx(Cicp, bool),
    Prof(Span),
    Auxc,
    // 'irot' or 'imir'.
    Turn(FourCc, u8),
    Hdr(HdrBox),
}

#[tactic(auto, using(matching::specs::MatchedLaws::pieces), unfolding(properties::specs::Property::codec_config, boxes::specs::Boxed::boxed))]
fn match_config(file: &[u8], at: usize, box_type: FourCc, config: Span) -> Option<usize>
    ensures { result ≡ matched file.now (Some at) (codec_config box_type (part_of file.now config.at config.len)) }
{
    let at = match_box_header(file, at, part(file, config).len(), box_type)?;
    match_part(file, at, config)
}

#[tactic(auto, using(matching::specs::MatchedLaws::pieces), unfolding(properties::specs::Property::prof, properties::specs::Property::prof_body, boxes::specs::Boxed::boxed))]
fn match_prof(file: &[u8], at: usize, icc: Span) -> Option<usize>
    ensures { result ≡ matched file.now (Some at) (prof (part_of file.now icc.at icc.len)) }
{
    let at = match_box_header(file, at, 4 + part(file, icc).len(), COLR)?;
    let at = match_written::<4, _>(file, at, |out| put_four_cc(out, 0, PROF))?;
    match_part(file, at, icc)
}

#[tactic(auto, using(matching::specs::MatchedLaws::pieces, crate::proofs::Laws::hdr_box_most))]
fn match_property(file: &[u8], at: usize, property: Property) -> Option<usize>
    ensures { result ≡ matched file.now (Some at) (property_box file.now property) }
{
    match property {
        Property::Config(box_type, config) => match_config(file, at, box_type, config),
        Property::Ispe(size) => match_written::<20, _>(file, at, |out| put_ispe(out, 0, size)),
        Property::Pixi(format, chroma) => {
            match_written::<22, _>(file, at, |out| put_pixi(out, 0, format, chroma))
        }
        Property::AlphaPixi(format) => {
            match_written::<16, _>(file, at, |out| put_alpha_pixi(out, 0, format))
        }
        Property::Nclx(cicp, full) => {
            match_written::<19, _>(file, at, |out| put_nclx(out, 0, cicp, full))
        }
        Property::Prof(icc) => match_prof(file, at, icc),
        Property::Auxc => match_written::<56, _>(file, at, |out| put_auxc(out, 0)),
        Property::Turn(box_type, turn) => {
            match_written::<9, _>(file, at, |out| put_turn(out, 0, box_type, turn))
        }
        Property::Hdr(held) => match_written::<45, _>(file, at, |out| held.put(out, 0)),
    }
}

#[tactic(auto, using(matching::specs::MatchedLaws::pieces))]
fn match_slot(file: &[u8], at: usize, held: Option<Property>) -> Option<usize>
    ensures { result ≡ matched file.now (Some at) (slot_bytes (slot_of file.now held)) }
{
    match held {
        Some(property) => match_property(file, at, property),
        None => match_written::<8, _>(file, at, |out| put_free(out, 0)),
    }
}

// The place after the slots, one after another.
#[tactic(auto, using(crate::proofs::Laws::slots_matched))]
pub fn match_slots(file: &[u8], at: usize, slots: &[Option<Property>]) -> Option<usize>
    requires { at ≤ length file.now }
    ensures { result ≡ matched file.now (Some at) (slots_bytes (slots_of file.now slots.now)) }
{
    let mut next = at;
    for &held in slots {
        next = match_slot(file, next, held)?;
    }
    Some(next)
}

// A property, where its item is there.
fn only_if(there: bool, held: Option<Property>) -> Option<Property>
    ensures { (f : List ℕ) → slot_of f result ≡ cond there (slot_of f held) none }
{
    if there { held } else { None }
}

// A codec configuration, the item's own or else the main picture's; none where it is empty.
#[tactic(auto, using(slots::specs::Sound::config_placed), unfolding(octets::specs::Part::part_of))]
fn config(types: Option<CodecTypes>, own: Chunk, main: Span) -> Option<Property>
    ensures { (f : List ℕ) → ChunkPlaced own f → SpanPlaced main f → slot_of f result ≡ config_slot types (config_or own main) f }
{
    let config = own.unwrap_or(main);
    (0 < config.len).then_some(Property::Config(config_type(types), config))
}

#[tactic(auto, unfolding(octets::specs::Part::part_of))]
fn prof(icc: Chunk) -> Option<Property>
    ensures { (f : List ℕ) → ChunkPlaced icc f → slot_of f result ≡ prof_slot icc f }
{
    icc.map(Property::Prof)
}

fn turn(box_type: FourCc, turn: Option<u8>) -> Option<Property>
    ensures { (f : List ℕ) → slot_of f result ≡ turn_slot (turn_box box_type) turn }
{
    turn.map(|turn| Property::Turn(box_type, turn))
}

fn hdr(held: Option<HdrBox>) -> Option<Property>
    ensures { (f : List ℕ) → slot_of f result ≡ hdr_slot held }
{
    held.map(Property::Hdr)
}

// The tone map's colour, told or sRGB; none where there is only a profile.
fn tmap_nclx(cicp: Option<TmapCicp>, icc: Chunk) -> Option<Property>
    ensures { (f : List ℕ) → slot_of f result ≡ tmap_nclx_slot cicp icc }
{
    let colour = cicp.unwrap_or(SRGB);
    has_tmap_nclx(cicp, icc).then_some(Property::Nclx(colour.cicp, colour.full_range))
}

// What the slots hold, by number, as the table in slots/specs/Slots.antt lists them.
#[tactic(auto, using(slots::specs::SlotLaws::slots_flat), unfolding(crate::specs::SlotOf::slots_of, slots::specs::Slots::main_slots, slots::specs::Slots::alpha_slots, slots::specs::Slots::orientation_slots, slots::specs::Slots::hdr_slots, slots::specs::Slots::gain_map_slots, slots::specs::Slots::tmap_slots, properties::specs::Property::irot, properties::specs::Property::imir))]
pub fn properties(image: MinimizedImage) -> [Option<Property>; 32]
    requires { Bounded image }
    ensures { (f : List ℕ) → Sound image f → slots_of f result ≡ slots image f }
{
    let types = image.explicit_codec_types;
    let main = image.main_codec_config;
    let size = Size {
        width: image.width,
        height: image.height,
    };
    let alpha = has_alpha_item(image);
    let turns = turns_of(image.orientation);
    let [clli, mdcv, cclv, amve, reve, ndwt] = hdr_boxes(image.hdr_boxes);
    let gain_map = has_gain_map_item(image);
    let g = image.gain_map;
    let gain_map_size = Size {
        width: g.width,
        height: g.height,
    };
    let gain_map_cicp = Cicp {
        primaries: 2,
        transfer: 2,
        matrix: g.matrix_coefficients,
    };
    let tone_map = image.has_gain_map;
    let [
        tmap_clli,
        tmap_mdcv,
        tmap_cclv,
        tmap_amve,
        tmap_reve,
        tmap_ndwt,
    ] = hdr_boxes(g.tmap_hdr);
    [
        config(types, None, main),
        Some(Property::Ispe(size)),
        Some(Property::Pixi(image.format, image.chroma)),
        Some(Property::Nclx(image.cicp(), image.full_range)),
        prof(image.icc),
        only_if(alpha, config(types, image.alpha_codec_config, main)),
        only_if(alpha, Some(Property::Auxc)),
        only_if(alpha, Some(Property::AlphaPixi(image.format))),
        turn(IROT, turns.angle),
        turn(IMIR, turns.axis),
        hdr(clli),
        hdr(mdcv),
        hdr(cclv),
        hdr(amve),
        hdr(reve),
        hdr(ndwt),
        only_if(gain_map, config(types, g.codec_config, main)),
        only_if(gain_map, Some(Property::Ispe(gain_map_size))),
        only_if(gain_map, Some(Property::Pixi(g.format, g.chroma))),
        only_if(gain_map, Some(Property::Nclx(gain_map_cicp, g.full_range))),
        only_if(tone_map, Some(Property::Ispe(image.shown_size()))),
        only_if(tone_map, tmap_nclx(g.tmap_cicp, g.tmap_icc)),
        only_if(tone_map, prof(g.tmap_icc)),
        only_if(tone_map, hdr(tmap_clli)),
        only_if(tone_map, hdr(tmap_mdcv)),
        only_if(tone_map, hdr(tmap_cclv)),
        only_if(tone_map, hdr(tmap_amve)),
        only_if(tone_map, hdr(tmap_reve)),
        only_if(tone_map, hdr(tmap_ndwt)),
        None,
        None,
        None,
    ]
}
