// Bits and siting of the samples, channel by channel.
ghost use Rattle.std.specs.Prelude.{◌≡◌, ◌*◌, ◌+◌, ◌≤◌, length, map};
ghost use Rattle.octets.specs.Overwrite.{Wrote};
ghost use Rattle.mini.specs.Cut.{joined};
ghost use Rattle.properties.specs.Pixi.{told, chroma_channel, component_format, subsampling_type, subsampling_location, channels_of, alpha_channels, channel_bytes, pixi_body, pixi, pixi_len};

use crate::Channel;
use boxes::{FourCc, put_boxed, put_full_box_header};
use mini::{MiniChroma, SampleFormat};
use octets::{put_repeated, put_u8};

const PIXI: FourCc = 0x70697869;

// The channel numbers, no enum since they are what is written: 2 is the first component of a picture, 3 and 4 are the other two, 5 is alpha.
const FIRST: Channel = Channel {
    idc: 2,
    subsampling_type: 0,
    subsampling_location: 0,
};

const ALPHA: Channel = Channel {
    idc: 5,
    subsampling_type: 0,
    subsampling_location: 0,
};

fn component_format(format: SampleFormat) -> u8
    ensures { (result ≡ component_format format) × (result ≤ 1) }
{
    u8::from(format.is_float())
}

// A table of its own: 2 for 4:2:0, 1 for 4:2:2, else 0. The subsampling is a number, as in the record.
fn subsampling_type(subsampling: u8) -> u8
    ensures { (result ≡ subsampling_type subsampling) × (result ≤ 2) }
{
    match subsampling {
        1 => 2,
        2 => 1,
        _ => 0,
    }
}

// The chroma siting code, as its definition has it.
fn subsampling_location(chroma: MiniChroma) -> u8
    ensures { (result ≡ subsampling_location chroma.horizontally_centered chroma.vertically_centered) × (result ≤ 3) }
{
    2 + u8::from(chroma.horizontally_centered) - 2 * u8::from(chroma.vertically_centered)
}

// No `From`: which channel it is, the chroma does not say.
fn chroma_channel(idc: u8, chroma: MiniChroma) -> Channel
    requires { idc ≤ 7 }
    ensures { told result ≡ chroma_channel idc chroma }
{
    Channel {
        idc,
        subsampling_type: subsampling_type(chroma.subsampling),
        subsampling_location: subsampling_location(chroma),
    }
}

#[tactic(auto, using(octets::specs::OverwriteLaws::writes), unfolding(crate::specs::Pixi::channel_bytes))]
fn put_channel(out: &mut [u8], at: usize, format: SampleFormat, channel: Channel) -> usize
    requires { at + 2 ≤ length out.old }
    ensures { Wrote out.old at 2 (channel_bytes (component_format format) (told channel)) out.new result }
{
    let at = put_u8(out, at, channel.idc * 32 + component_format(format) * 4 + 2);
    put_u8(
        out,
        at,
        channel.subsampling_type * 16 + channel.subsampling_location,
    )
}

#[tactic(auto, using(octets::specs::OverwriteLaws::nothing))]
fn put_channels(out: &mut [u8], at: usize, format: SampleFormat, channels: &[Channel]) -> usize
    requires { at + 2 * length channels.now ≤ length out.old }
    ensures { Wrote out.old at (2 * length channels.now) (joined (map (channel_bytes (component_format format)) (map told channels.now))) out.new result }
{
    // A loop: after a `fold` nothing is known of an output that its closure changes. `put_kept` (slots) is the like of it, of another item.
    let mut next = at;
    for &channel in channels {
        next = put_channel(out, next, format, channel);
    }
    next
}

#[tactic(auto, using(crate::proofs::Laws::list_writes), unfolding(crate::specs::Pixi::pixi_body))]
fn pixi_body(out: &mut [u8], format: SampleFormat, channels: &[Channel]) -> usize
    requires { (5 + 3 * length channels.now ≤ length out.old) × (length channels.now ≤ 3) }
    ensures { Wrote out.old 0 (5 + 3 * length channels.now) (pixi_body format (map told channels.now)) out.new result }
{
    let n = channels.len();
    let at = put_full_box_header(out, 0, 0, 1);
    // `as`: a `usize` has no `From` to another number.
    let at = put_u8(out, at, n as u8);
    let at = put_repeated(out, at, n, format.bits());
    put_channels(out, at, format, channels)
}

#[tactic(auto, using(boxes::specs::Boxed::boxes), unfolding(crate::specs::Pixi::pixi))]
fn put_pixi_box(out: &mut [u8], at: usize, format: SampleFormat, channels: &[Channel]) -> usize
    requires { (at + (13 + 3 * length channels.now) ≤ length out.old) × (length channels.now ≤ 3) }
    ensures { Wrote out.old at (13 + 3 * length channels.now) (pixi format (map told channels.now)) out.new result }
{
    put_boxed(out, at, PIXI, |part| pixi_body(part, format, channels))
}

// How many bytes `put_alpha_pixi` writes.
pub const ALPHA_PIXI_LEN: usize = 16;

// How many bytes `put_pixi` writes, for one channel or three.
pub fn pixi_len(chroma: MiniChroma) -> usize
    ensures { (result ≡ pixi_len (channels_of chroma)) × (result ≤ 22) }
{
    if chroma.is_monochrome() { 16 } else { 22 }
}

// The channels of a colour or a grey picture.
pub fn put_pixi(out: &mut [u8], at: usize, format: SampleFormat, chroma: MiniChroma) -> usize
    requires { at + pixi_len (channels_of chroma) ≤ length out.old }
    ensures { Wrote out.old at (pixi_len (channels_of chroma)) (pixi format (channels_of chroma)) out.new result }
{
    if chroma.is_monochrome() {
        return put_pixi_box(out, at, format, &[FIRST]);
    }
    let channels = [FIRST, chroma_channel(3, chroma), chroma_channel(4, chroma)];
    put_pixi_box(out, at, format, &channels)
}

// The alpha channel alone.
pub fn put_alpha_pixi(out: &mut [u8], at: usize, format: SampleFormat) -> usize
    requires { at + pixi_len alpha_channels ≤ length out.old }
    ensures { Wrote out.old at (pixi_len alpha_channels) (pixi format alpha_channels) out.new result }
{
    put_pixi_box(out, at, format, &[ALPHA])
}
