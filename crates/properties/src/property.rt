// Size, colour, codec configuration, alpha, rotation and mirror.
ghost use Rattle.std.specs.Prelude.{◌≡◌, ◌++◌, ◌+◌, ◌≤◌, ◌<◌, length};
ghost use Rattle.octets.specs.Overwrite.{Wrote};
ghost use Rattle.boxes.specs.Boxed.{boxed, full_box_header};
ghost use Rattle.properties.specs.Property.{full_box, full_box_len, ispe_body, ispe, ispe_len, full_range_byte, nclx_body, nclx, nclx_len, prof_body, prof, prof_len, codec_config, codec_config_len, aux_c, aux_c_len, turn_box, turn_len};

use boxes::{FourCc, put_boxed, put_four_cc, put_full_box_header};
use mini::{Cicp, Size};
use octets::{copy_in, put, put_u8};

const ISPE: FourCc = 0x69737065;

pub const COLR: FourCc = 0x636F6C72;

const NCLX: FourCc = 0x6E636C78;

pub const PROF: FourCc = 0x70726F66;

const AUXC: FourCc = 0x61757843;

pub const IROT: FourCc = 0x69726F74;

pub const IMIR: FourCc = 0x696D6972;

// How many bytes `put_ispe`, `put_nclx`, `put_auxc` and `put_turn` write.
pub const ISPE_LEN: usize = 20;

pub const NCLX_LEN: usize = 19;

pub const AUXC_LEN: usize = 56;

pub const TURN_LEN: usize = 9;

// A box with a given body.
#[tactic(auto, using(boxes::specs::Boxed::boxes))]
pub fn put_box(out: &mut [u8], at: usize, box_type: FourCc, body: &[u8]) -> usize
    requires { (at + (8 + length body.now) ≤ length out.old) × (8 + length body.now < 4294967296) }
    ensures { Wrote out.old at (8 + length body.now) (boxed box_type body.now) out.new result }
{
    put_boxed(out, at, box_type, |part| copy_in(part, 0, body))
}

#[tactic(auto, using(octets::specs::OverwriteLaws::writes))]
fn full_body(out: &mut [u8], body: &[u8]) -> usize
    requires { 4 + length body.now ≤ length out.old }
    ensures { Wrote out.old 0 (4 + length body.now) (full_box_header 0 0 ++ body.now) out.new result }
{
    let at = put_full_box_header(out, 0, 0, 0);
    copy_in(out, at, body)
}

// A full box of version 0 and flags 0 with a given body.
#[tactic(auto, using(boxes::specs::Boxed::boxes), unfolding(crate::specs::Property::full_box))]
pub fn put_full_box(out: &mut [u8], at: usize, box_type: FourCc, body: &[u8]) -> usize
    requires { (at + full_box_len (length body.now) ≤ length out.old) × (full_box_len (length body.now) < 4294967296) }
    ensures { Wrote out.old at (full_box_len (length body.now)) (full_box box_type body.now) out.new result }
{
    put_boxed(out, at, box_type, |part| full_body(part, body))
}

#[tactic(auto, using(octets::specs::OverwriteLaws::writes), unfolding(crate::specs::Property::ispe_body))]
fn ispe_body(out: &mut [u8], size: Size) -> usize
    requires { 12 ≤ length out.old }
    ensures { Wrote out.old 0 12 (ispe_body size.width size.height) out.new result }
{
    let at = put_full_box_header(out, 0, 0, 0);
    let at = put::<4>(out, at, u64::from(size.width));
    put::<4>(out, at, u64::from(size.height))
}

// The picture's size.
#[tactic(auto, using(boxes::specs::Boxed::boxes), unfolding(crate::specs::Property::ispe))]
pub fn put_ispe(out: &mut [u8], at: usize, size: Size) -> usize
    requires { at + ispe_len ≤ length out.old }
    ensures { Wrote out.old at ispe_len (ispe size.width size.height) out.new result }
{
    put_boxed(out, at, ISPE, |part| ispe_body(part, size))
}

// The flag is the first bit of its byte.
fn full_range_byte(full: bool) -> u8
    ensures { result ≡ full_range_byte full }
{
    u8::from(full) << 7
}

#[tactic(auto, using(octets::specs::OverwriteLaws::writes), unfolding(crate::specs::Property::nclx_body))]
fn nclx_body(out: &mut [u8], cicp: Cicp, full: bool) -> usize
    requires { 11 ≤ length out.old }
    ensures { Wrote out.old 0 11 (nclx_body cicp.primaries cicp.transfer cicp.matrix full) out.new result }
{
    let at = put_four_cc(out, 0, NCLX);
    let at = put::<2>(out, at, u64::from(cicp.primaries));
    let at = put::<2>(out, at, u64::from(cicp.transfer));
    let at = put::<2>(out, at, u64::from(cicp.matrix));
    put_u8(out, at, full_range_byte(full))
}

// Colour by code points. Two parameters: the struct that holds the same two, `TmapCicp`, is named for the tone map.
#[tactic(auto, using(boxes::specs::Boxed::boxes), unfolding(crate::specs::Property::nclx))]
pub fn put_nclx(out: &mut [u8], at: usize, cicp: Cicp, full: bool) -> usize
    requires { at + nclx_len ≤ length out.old }
    ensures { Wrote out.old at nclx_len (nclx cicp.primaries cicp.transfer cicp.matrix full) out.new result }
{
    put_boxed(out, at, COLR, |part| nclx_body(part, cicp, full))
}

#[tactic(auto, using(octets::specs::OverwriteLaws::writes), unfolding(crate::specs::Property::prof_body))]
fn prof_body(out: &mut [u8], icc: &[u8]) -> usize
    requires { 4 + length icc.now ≤ length out.old }
    ensures { Wrote out.old 0 (4 + length icc.now) (prof_body icc.now) out.new result }
{
    let at = put_four_cc(out, 0, PROF);
    copy_in(out, at, icc)
}

// Colour by an ICC profile.
#[tactic(auto, using(boxes::specs::Boxed::boxes), unfolding(crate::specs::Property::prof))]
pub fn put_prof(out: &mut [u8], at: usize, icc: &[u8]) -> usize
    requires { (at + prof_len (length icc.now) ≤ length out.old) × (prof_len (length icc.now) < 4294967296) }
    ensures { Wrote out.old at (prof_len (length icc.now)) (prof icc.now) out.new result }
{
    put_boxed(out, at, COLR, |part| prof_body(part, icc))
}

// A codec configuration, in a box of its type: `put_box` under the name of its definition.
#[tactic(auto, unfolding(crate::specs::Property::codec_config))]
pub fn put_codec_config(out: &mut [u8], at: usize, box_type: FourCc, config: &[u8]) -> usize
    requires { (at + codec_config_len (length config.now) ≤ length out.old) × (codec_config_len (length config.now) < 4294967296) }
    ensures { Wrote out.old at (codec_config_len (length config.now)) (codec_config box_type config.now) out.new result }
{
    put_box(out, at, box_type, config)
}

// That a picture is an alpha plane: AUX_URN_ALPHA of props.rs, ended by a zero byte.
#[tactic(auto, unfolding(crate::specs::Property::aux_c, crate::specs::Property::AUX_URN_ALPHA))]
pub fn put_auxc(out: &mut [u8], at: usize) -> usize
    requires { at + aux_c_len ≤ length out.old }
    ensures { Wrote out.old at aux_c_len aux_c out.new result }
{
    put_full_box(
        out,
        at,
        AUXC,
        b"urn:mpeg:mpegB:cicp:systems:auxiliary:alpha\0",
    )
}

// 'irot' with its angle, or 'imir' with its axis: one function, since both are written alike, so the type is a parameter.
#[tactic(auto, using(boxes::specs::Boxed::boxes))]
pub fn put_turn(out: &mut [u8], at: usize, box_type: FourCc, turn: u8) -> usize
    requires { at + turn_len ≤ length out.old }
    ensures { Wrote out.old at turn_len (turn_box box_type turn) out.new result }
{
    put_boxed(out, at, box_type, |part| put_u8(part, 0, turn))
}
