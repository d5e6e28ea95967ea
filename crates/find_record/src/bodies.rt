// What properties say, each read from its box's body.
ghost use Rattle.std.specs.Prelude.{◌≡◌, drop};
ghost use Rattle.normal_form.specs.ReadProperties.{format_in, chroma_of, chroma_in, cicp_in, range_in, orientation_of, padded};
ghost use Rattle.normal_form.specs.ReadRecord.{width_in, height_in};

use crate::numbers::{byte, number_4};
use mini::{Cicp, MiniChroma, SampleFormat, Size};

// The first of a channel's two bytes in a 'pixi' of floats.
const FLOAT: u8 = 70;

const FULL_RANGE: u8 = 0x80;

pub fn format_in(body: &[u8]) -> SampleFormat
    ensures { result ≡ format_in body.now }
{
    let channels = byte(body, 4);
    let bits = byte(body, 5);
    match byte(body, 5 + usize::from(channels)) {
        FLOAT => SampleFormat::Float { bits },
        _ => SampleFormat::Integer { bits },
    }
}

fn chroma_of(channels: u8, second: u8) -> MiniChroma
    ensures { result ≡ chroma_of channels second }
{
    if channels == 1 {
        return MiniChroma::default();
    }
    MiniChroma {
        subsampling: match second {
            32.. => 1,
            16..=31 => 2,
            _ => 3,
        },
        horizontally_centered: second % 2 == 1,
        vertically_centered: second % 4 < 2,
    }
}

pub fn chroma_in(body: &[u8]) -> MiniChroma
    ensures { result ≡ chroma_in body.now }
{
    chroma_of(byte(body, 4), byte(body, 11))
}

pub fn cicp_in(body: &[u8]) -> Cicp
    ensures { result ≡ cicp_in body.now }
{
    Cicp {
        primaries: byte(body, 5),
        transfer: byte(body, 7),
        matrix: byte(body, 9),
    }
}

pub fn range_in(body: &[u8]) -> bool
    ensures { result ≡ range_in body.now }
{
    byte(body, 10) == FULL_RANGE
}

pub fn orientation_of(angle: Option<u8>, axis: Option<u8>) -> u8
    ensures { result ≡ orientation_of angle axis }
{
    match (angle, axis) {
        (None, None) => 1,
        (None, Some(1)) => 2,
        (None, Some(_)) => 4,
        (Some(2), None) => 3,
        (Some(3), None) => 6,
        (Some(_), None) => 8,
        (Some(_), Some(0)) => 5,
        (Some(_), Some(_)) => 7,
    }
}

pub fn size_in(body: &[u8]) -> Size
    ensures { result ≡ record { width = width_in body.now; height = height_in body.now } }
{
    Size {
        width: number_4(body, 4),
        height: number_4(body, 8),
    }
}

// What follows version and flags, with which the body of a full box begins.
pub fn after_flags(body: &[u8]) -> &[u8]
    ensures { result.now ≡ drop 4 body.now }
{
    body.get(4..).unwrap_or_default()
}

// The first N bytes of a body, with zeros where it is shorter.
pub fn padded<const N: usize>(body: &[u8]) -> [u8; N]
    ensures { result ≡ padded N body.now }
{
    let mut held = [0; N];
    let n = body.len().min(N);
    held[..n].copy_from_slice(&body[..n]);
    held
}
