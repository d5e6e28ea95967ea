// Back to a mini: what stands in the record found for what a file does not carry (document 02, 3). In each row something is set in one record; the
// record is expanded, another is found in the file, and a number of both is printed.
use crate::limits::{FULL, full};
use expander::entry::equivalent_file;
use find_mini::find_mini;
use ftyp::FileType;
use mini::{CodecTypes, MiniChroma, MiniGainMap, MinimizedImage, SampleFormat, Span};
use octets::part;
use slots::slot::SRGB;
use std::io;

const ORIGINAL: FileType<&[u8]> = FileType {
    major_brand: 0x6D696633,
    minor_version: 0,
    compatible_brands: b"mif3",
};

// An empty chunk, which lies somewhere.
const EMPTY: Span = Span { at: 5, len: 0 };

// The record with every chunk, with its types named.
fn typed() -> Option<MinimizedImage> {
    let image = full().ok()?;
    Some(MinimizedImage {
        explicit_codec_types: Some(CodecTypes {
            infe_type: 0x61763031,
            codec_config_type: 0x61763143,
        }),
        ..image
    })
}

// The record found in the file of a record.
fn found(image: MinimizedImage) -> Option<MinimizedImage> {
    let mut file = [0; 2048];
    let len = equivalent_file(image, FULL, ORIGINAL, &mut file).ok()?;
    find_mini(part(&file, Span { at: 0, len }), ORIGINAL).ok()
}

// A number of the record in which something is set, and of the one found in its file.
fn row<S: Fn(&mut MinimizedImage), G: Fn(MinimizedImage) -> usize>(
    rt: &impl Print,
    label: &str,
    set: S,
    get: G,
) -> io::Result<()>
    requires set { S.IsAlwaysCallable set }
    requires get { G.IsAlwaysCallable get }
{
    let Some(mut image) = typed() else {
        return println!(rt; "{label}: refused");
    };
    set(&mut image);
    let before = get(image);
    match found(image) {
        Some(image) => println!(rt; "{label}: {before}, found {}", get(image)),
        None => println!(rt; "{label}: {before}, none found"),
    }
}

fn without_gain_map(image: &mut MinimizedImage) {
    image.has_gain_map = false;
    image.gain_map = MiniGainMap::default();
}

// A gain map of 7 by 9 without data, in a picture of 3 by 2 that is shown as 2 by 3.
fn without_gain_map_data(image: &mut MinimizedImage) {
    image.width = 3;
    image.height = 2;
    image.orientation = 6;
    let g = &mut image.gain_map;
    g.data = EMPTY;
    g.codec_config = None;
    g.width = 7;
    g.height = 9;
    g.matrix_coefficients = 5;
    g.full_range = true;
    g.chroma = MiniChroma {
        subsampling: 1,
        horizontally_centered: true,
        vertically_centered: true,
    };
    g.format = SampleFormat::Float { bits: 16 };
}

fn without_configs(image: &mut MinimizedImage) {
    image.main_codec_config = EMPTY;
    image.alpha_codec_config = None;
    image.gain_map.codec_config = None;
}

// Of a gain map without data.
fn gain_map_row<G: Fn(MiniGainMap) -> usize>(rt: &impl Print, label: &str, get: G) -> io::Result<()>
    requires { G.IsAlwaysCallable get }
{
    row(rt, label, without_gain_map_data, |i| get(i.gain_map))
}

pub fn not_carried(rt: &impl Print) -> io::Result<()> {
    row(
        rt,
        "colour triple, as inferred",
        |i| i.explicit_cicp = Some(i.cicp()),
        |i| usize::from(i.explicit_cicp.is_some()),
    )?;
    row(
        rt,
        "hdr, without gain map and body",
        without_gain_map,
        |i| usize::from(i.hdr),
    )?;
    row(
        rt,
        "alpha configuration, the main one's bytes",
        |i| i.alpha_codec_config = Some(i.main_codec_config),
        |i| usize::from(i.alpha_codec_config.is_some()),
    )?;
    row(
        rt,
        "gain-map configuration, the main one's bytes",
        |i| i.gain_map.codec_config = Some(i.main_codec_config),
        |i| usize::from(i.gain_map.codec_config.is_some()),
    )?;
    row(
        rt,
        "tone map's colours, sRGB without ICC",
        |i| {
            i.gain_map.tmap_icc = None;
            i.gain_map.tmap_cicp = Some(SRGB);
        },
        |i| usize::from(i.gain_map.tmap_cicp.is_some()),
    )?;
    row(
        rt,
        "tone map's colours, sRGB beside an ICC",
        |i| i.gain_map.tmap_cicp = Some(SRGB),
        |i| usize::from(i.gain_map.tmap_cicp.is_some()),
    )?;
    row(
        rt,
        "configuration's type, without configurations",
        without_configs,
        |i| i
            .explicit_codec_types
            .map_or(0, |types| types.codec_config_type as usize),
    )
}

pub fn gain_map_without_data(rt: &impl Print) -> io::Result<()> {
    gain_map_row(rt, "gain map without data: width", |g| g.width as usize)?;
    gain_map_row(rt, "gain map without data: height", |g| g.height as usize)?;
    gain_map_row(
        rt,
        "gain map without data: matrix",
        |g| usize::from(g.matrix_coefficients),
    )?;
    gain_map_row(
        rt,
        "gain map without data: full range",
        |g| usize::from(g.full_range),
    )?;
    gain_map_row(
        rt,
        "gain map without data: subsampling",
        |g| usize::from(g.chroma.subsampling),
    )?;
    gain_map_row(
        rt,
        "gain map without data: centred horizontally",
        |g| usize::from(g.chroma.horizontally_centered),
    )?;
    gain_map_row(
        rt,
        "gain map without data: centred vertically",
        |g| usize::from(g.chroma.vertically_centered),
    )?;
    gain_map_row(
        rt,
        "gain map without data: bits",
        |g| usize::from(g.format.bits()),
    )?;
    gain_map_row(
        rt,
        "gain map without data: float",
        |g| usize::from(g.format.is_float()),
    )
}

pub fn empty_chunks(rt: &impl Print) -> io::Result<()> {
    row(
        rt,
        "place of empty main configuration",
        without_configs,
        |i| i.main_codec_config.at,
    )?;
    row(
        rt,
        "place of empty metadata",
        |i| i.gain_map.metadata = EMPTY,
        |i| i.gain_map.metadata.at,
    )?;
    gain_map_row(rt, "place of empty gain-map data", |g| g.data.at)?;
    row(
        rt,
        "place of empty alpha data",
        |i| {
            i.alpha = false;
            i.alpha_premultiplied = false;
            i.alpha_codec_config = None;
            i.alpha_data = EMPTY;
        },
        |i| i.alpha_data.at,
    )?;
    row(rt, "place of main data", |_| (), |i| i.main_data.at)?;
    row(
        rt,
        "width of an absent gain map",
        without_gain_map,
        |i| i.gain_map.width as usize,
    )?;
    row(
        rt,
        "bits of an absent gain map",
        without_gain_map,
        |i| usize::from(i.gain_map.format.bits()),
    )
}
