// The limits of short and long fields: for each, what writing makes of it and of one more.
ghost use Rattle.std.specs.Prelude.{◌<◌};

use bits::ReadError;
use mini::{MinimizedImage, Span};
use reader::parse;
use record_header::header_of;
use std::io;
use writer::is_writable;

// The payload of a record with every chunk, each of one byte, and a gain map of the main picture's size.
pub const FULL: &[u8] =
    b"\x05\xe0\x00\x00\x60\x00\x80\x00\x00\x00\x00\x02\x00\x04\x90\x00\x00\x00\x48\x00\x00\x00ABCDEFGHIJK";

pub fn full() -> Result<MinimizedImage, ReadError> {
    parse(FULL)
}

// By `as`: no `From` leads from u32 to usize.
fn span(len: u32) -> Span {
    Span {
        at: 0,
        len: len as usize,
    }
}

// The form in which a record is written, or the number of the refusal, as it is printed: an enum with `Display` would only say these words again.
fn form(image: MinimizedImage) -> &'static str {
    if !is_writable(image) {
        return "11";
    }
    let header = header_of(image);
    let sizes = header.sizes;
    if header.dimensions.large
        || sizes.large_metadata
        || sizes.large_codec_config
        || sizes.large_item_data
    {
        "long"
    } else {
        "short"
    }
}

// At the end of the short form, one more, at the end of the long form, and one more: each set in the full record.
fn limits<F: Fn(&mut MinimizedImage, u32)>(
    rt: &impl Print,
    label: &str,
    short: u32,
    long: u32,
    set: F,
) -> io::Result<()>
    requires ends { (short < 4294967295) × (long < 4294967295) }
    requires callable { F.IsAlwaysCallable set }
{
    print!(rt; "{label}:")?;
    for n in [short, short + 1, long, long + 1] {
        let form = match full() {
            Ok(mut image) => {
                set(&mut image, n);
                form(image)
            }
            Err(_) => "refused",
        };
        print!(rt; " {n} {form}")?;
    }
    println!(rt; "")
}

pub fn dimensions(rt: &impl Print) -> io::Result<()> {
    limits(rt, "width", 128, 32768, |i, n| i.width = n)?;
    limits(rt, "height", 128, 32768, |i, n| i.height = n)?;
    limits(
        rt,
        "gain-map width",
        128,
        32768,
        |i, n| i.gain_map.width = n,
    )
}

pub fn metadata(rt: &impl Print) -> io::Result<()> {
    limits(rt, "ICC", 1024, 1048576, |i, n| i.icc = Some(span(n)))?;
    limits(
        rt,
        "tone-map ICC",
        1024,
        1048576,
        |i, n| i.gain_map.tmap_icc = Some(span(n)),
    )?;
    limits(rt, "Exif", 1024, 1048576, |i, n| i.exif = Some(span(n)))?;
    limits(rt, "XMP", 1024, 1048576, |i, n| i.xmp = Some(span(n)))?;
    limits(
        rt,
        "gain-map metadata",
        1023,
        1048575,
        |i, n| i.gain_map.metadata = span(n),
    )
}

pub fn item_data(rt: &impl Print) -> io::Result<()> {
    limits(
        rt,
        "main data",
        32768,
        268435456,
        |i, n| i.main_data = span(n),
    )?;
    limits(
        rt,
        "alpha data",
        32767,
        268435455,
        |i, n| i.alpha_data = span(n),
    )?;
    limits(
        rt,
        "gain-map data",
        32767,
        268435455,
        |i, n| i.gain_map.data = span(n),
    )
}

pub fn codec_configs(rt: &impl Print) -> io::Result<()> {
    limits(
        rt,
        "main configuration",
        7,
        4095,
        |i, n| i.main_codec_config = span(n),
    )?;
    limits(
        rt,
        "alpha configuration",
        7,
        4095,
        |i, n| i.alpha_codec_config = Some(span(n)),
    )?;
    limits(
        rt,
        "gain-map configuration",
        7,
        4095,
        |i, n| i.gain_map.codec_config = Some(span(n)),
    )
}
