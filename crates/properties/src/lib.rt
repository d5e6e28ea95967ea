// Item properties of the equivalent file, each as a box (ISO/IEC 23008-12, 6.5 and O.4.6). Nothing here knows in which slot of
// 'ipco' a property stands.
#![tactic(auto)]

pub mod hdr_boxes;
pub mod orientation;
pub mod pixi;
pub mod property;

ghost use Rattle.std.specs.Prelude.{◌≤◌};

// irot's angle and imir's axis, where there is one: two `Option`s, no enum, since either may be there without the other, and both.
#[derive(Clone, Copy, Debug, PartialEq, Eq)]
pub struct Turns {
    pub angle: Option<u8>,
    pub axis: Option<u8>,
}

// A channel in 'pixi': its number, of three bits, and how it is subsampled and sited, of four bits each.
#[derive(Clone, Copy, Debug, PartialEq, Eq)]
pub struct Channel {
    pub idc: u8,
    pub subsampling_type: u8,
    pub subsampling_location: u8,
    ghost idc_bound: { idc ≤ 7 },
    ghost type_bound: { subsampling_type ≤ 15 },
    ghost location_bound: { subsampling_location ≤ 15 },
}
