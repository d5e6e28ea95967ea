// The boxes of 'meta' that list the items (ISO/IEC 23008-12, O.4): `equivalent_file` of mini.rs. Each body is written into its own stretch of
// the output, and then its header.
#![tactic(auto)]

pub mod group;
pub mod info;
pub mod locations;
pub mod references;

ghost use Rattle.std.specs.Prelude.{◌≡◌, ◌+◌, ◌≤◌, ◌<◌, length, count_by};
ghost use Rattle.octets.specs.Overwrite.{Wrote};
ghost use Rattle.items.specs.ItemLocations.{data_len};
ghost use Rattle.items.specs.Optional.{len_if};
ghost use Rattle.items.specs.HandlerAndPrimary.{hdlr_body, hdlr, hdlr_len, pitm_body, pitm, pitm_len};

use boxes::{FourCc, put_boxed, put_four_cc, put_full_box_header};
use mini::ItemKind;
use octets::{put, put_u8};

const HDLR: FourCc = 0x68646C72;

const PICT: FourCc = 0x70696374;

const PITM: FourCc = 0x7069746D;

// How many bytes `put_hdlr` writes.
pub const HDLR_LEN: usize = 33;

// How many bytes `put_pitm` writes.
pub const PITM_LEN: usize = 14;

// Which items the file has, and what their boxes say of them. The main picture is always there, of type `item_type`, as alpha and the gain map are.
// `premultiplied` is of alpha; `tone_map` is a gain map that is present, `gain_map` one whose data is not empty; `compressed` is of Exif and XMP.
#[derive(Clone, Copy, Debug, PartialEq, Eq)]
pub struct ItemSet {
    pub item_type: FourCc,
    pub alpha: bool,
    pub premultiplied: bool,
    pub tone_map: bool,
    pub gain_map: bool,
    pub exif: bool,
    pub xmp: bool,
    pub compressed: bool,
}

// How many bytes each item has, in the order in which they lie.
#[derive(Clone, Copy, Debug, PartialEq, Eq)]
pub struct DataLengths {
    pub alpha: usize,
    pub tone_map: usize,
    pub gain_map: usize,
    pub main: usize,
    pub exif: usize,
    pub xmp: usize,
}

impl DataLengths {
    // How many bytes the items have together. By name: over an array the sum's bound does not close.
    pub fn total(self) -> usize
        requires { data_len self < 4294967296 }
        ensures { result ≡ data_len self }
    {
        self.alpha + self.tone_map + self.gain_map + self.main + self.exif + self.xmp
    }
}

// The length of what is written only where a flag says so. What writes is a function for each part, here and in info.rt, references.rt and group.rt:
// one for all parts, by a closure that writes, proves where it is called once, but not where one part follows another.
pub fn len_if(on: bool, n: usize) -> usize
    ensures { (result ≡ len_if on n) × (result ≤ n) }
{
    if on { n } else { 0 }
}

// How many of the flags hold. `as`, here and in locations.rt and references.rt: a `usize` has no `From` to another number.
fn how_many(flags: &[bool]) -> u16
    requires { length flags.now ≤ 65535 }
    ensures value { result ≡ count_by (λ on. on) flags.now }
    ensures upper_bound { result ≤ length flags.now }
{
    flags.iter().filter(|on| **on).count() as u16
}

#[tactic(auto, using(octets::specs::OverwriteLaws::writes), unfolding(crate::specs::HandlerAndPrimary::hdlr_body))]
fn put_hdlr_body(out: &mut [u8]) -> usize
    requires { 25 ≤ length out.old }
    ensures { Wrote out.old 0 25 hdlr_body out.new result }
{
    let at = put_full_box_header(out, 0, 0, 0);
    let at = put::<4>(out, at, 0);
    let at = put_four_cc(out, at, PICT);
    let at = put::<8>(out, at, 0);
    let at = put::<4>(out, at, 0);
    put_u8(out, at, 0)
}

#[tactic(auto, using(boxes::specs::Boxed::boxes), unfolding(crate::specs::HandlerAndPrimary::hdlr))]
pub fn put_hdlr(out: &mut [u8], at: usize) -> usize
    requires { at + hdlr_len ≤ length out.old }
    ensures { Wrote out.old at hdlr_len hdlr out.new result }
{
    put_boxed(out, at, HDLR, put_hdlr_body)
}

#[tactic(auto, using(octets::specs::OverwriteLaws::writes), unfolding(crate::specs::HandlerAndPrimary::pitm_body))]
fn put_pitm_body(out: &mut [u8]) -> usize
    requires { 6 ≤ length out.old }
    ensures { Wrote out.old 0 6 pitm_body out.new result }
{
    let at = put_full_box_header(out, 0, 0, 0);
    put::<2>(out, at, u64::from(ItemKind::MAIN.0))
}

#[tactic(auto, using(boxes::specs::Boxed::boxes), unfolding(crate::specs::HandlerAndPrimary::pitm))]
pub fn put_pitm(out: &mut [u8], at: usize) -> usize
    requires { at + pitm_len ≤ length out.old }
    ensures { Wrote out.old at pitm_len pitm out.new result }
{
    put_boxed(out, at, PITM, put_pitm_body)
}
