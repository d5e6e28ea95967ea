// The record of a MinimizedImageBox and the parts of its header (ISO/IEC 23008-12 Amd 2, Annex O).
#![tactic(auto)]

ghost use Rattle.std.specs.Prelude.{◌≡◌, ◌≤◌, eqb};
ghost use Rattle.mini.specs.Cclv.{cclv_more};
ghost use Rattle.mini.specs.Cicp.{table_cicp, cicp_of};
ghost use Rattle.mini.specs.DisplayProfile.{display_conditions, meets_display_profile};
ghost use Rattle.mini.specs.Same.{chunk_len};
ghost use Rattle.mini.specs.ShownSize.{shown_size};
ghost use Rattle.mini.specs.Views.{is_float, bits_in};

use bits::Widths;
pub use octets::Span;

// The widths of the fields that have a long form and a short one.
pub const DIMENSION: Widths = Widths { long: 15, short: 7 };

pub const METADATA: Widths = Widths {
    long: 20,
    short: 10,
};

pub const CODEC_CONFIG: Widths = Widths { long: 12, short: 3 };

pub const ITEM_DATA: Widths = Widths {
    long: 28,
    short: 15,
};

#[derive(Clone, Copy, Debug, PartialEq, Eq)]
pub enum SampleFormat {
    Integer { bits: u8 },
    Float { bits: u8 },
}

// The types of the main item and of its configuration.
#[derive(Clone, Copy, Debug, PartialEq, Eq, Default)]
pub struct CodecTypes {
    pub infe_type: u32,
    pub codec_config_type: u32,
}

// Colour primaries, transfer characteristics and matrix coefficients.
#[derive(Clone, Copy, Debug, PartialEq, Eq, Default)]
pub struct Cicp {
    pub primaries: u8,
    pub transfer: u8,
    pub matrix: u8,
}

// The colour of the tone-mapped picture, with its range.
#[derive(Clone, Copy, Debug, PartialEq, Eq, Default)]
pub struct TmapCicp {
    pub cicp: Cicp,
    pub full_range: bool,
}

// `subsampling` is a number here and below, and `orientation` too: a record may hold one that no field holds, which writing refuses, and an enum
// would ask more of callers.
#[derive(Clone, Copy, Debug, PartialEq, Eq, Default)]
pub struct MiniChroma {
    pub subsampling: u8,
    pub horizontally_centered: bool,
    pub vertically_centered: bool,
}

// The bodies, each with zeros where it is absent, and after a cclv's length. A rule of the project asks for a flag beside each, and no Option
// (docs/DECISIONS.md, 9).
#[derive(Clone, Copy, Debug, PartialEq, Eq)]
pub struct MiniHdrBoxes {
    pub has_clli: bool,
    pub has_mdcv: bool,
    pub has_cclv: bool,
    pub has_amve: bool,
    pub has_reve: bool,
    pub has_ndwt: bool,
    pub clli: [u8; 4],
    pub mdcv: [u8; 24],
    pub cclv: [u8; 37],
    pub amve: [u8; 8],
    pub reve: [u8; 20],
    pub ndwt: [u8; 4],
}

// A part of the payload that may be absent.
pub type Chunk = Option<Span>;

// Width and height are two fields of the header, here and below, and so of the record and its parts; a `Size` is what a call gives.
#[derive(Clone, Copy, Debug, PartialEq, Eq)]
pub struct MiniGainMap {
    pub width: u32,
    pub height: u32,
    pub matrix_coefficients: u8,
    pub full_range: bool,
    pub chroma: MiniChroma,
    pub format: SampleFormat,
    // None: sRGB, Table O.5.
    pub tmap_cicp: Option<TmapCicp>,
    pub tmap_icc: Chunk,
    pub tmap_hdr: MiniHdrBoxes,
    pub metadata: Span,
    pub codec_config: Chunk,
    pub data: Span,
}

// The gain map is blank where has_gain_map is false: the flag is there by the same rule. `alpha` and `hdr` are flags of the header, and the record's
// definition has them beside the data, which may be empty where they are set.
#[derive(Clone, Copy, Debug, PartialEq, Eq)]
pub struct MinimizedImage {
    // None: inferred from the brand in the file type's minor version.
    pub explicit_codec_types: Option<CodecTypes>,
    pub format: SampleFormat,
    pub full_range: bool,
    pub chroma: MiniChroma,
    pub orientation: u8,
    pub width: u32,
    pub height: u32,
    // None: Table O.3.
    pub explicit_cicp: Option<Cicp>,
    pub icc: Chunk,
    pub alpha: bool,
    pub alpha_premultiplied: bool,
    pub hdr: bool,
    pub hdr_boxes: MiniHdrBoxes,
    pub has_gain_map: bool,
    pub gain_map: MiniGainMap,
    pub main_codec_config: Span,
    pub main_data: Span,
    pub alpha_codec_config: Chunk,
    pub alpha_data: Span,
    pub exif_xmp_compressed: bool,
    pub exif: Chunk,
    pub xmp: Chunk,
}

// The header's first sixteen bits.
#[derive(Clone, Copy, Debug, PartialEq, Eq)]
pub struct Flags {
    pub explicit_codec_types: bool,
    pub float: bool,
    pub full_range: bool,
    pub alpha: bool,
    pub explicit_cicp: bool,
    pub hdr: bool,
    pub icc: bool,
    pub exif: bool,
    pub xmp: bool,
    pub subsampling: u8,
    pub orientation: u8,
}

#[derive(Clone, Copy, Debug, PartialEq, Eq)]
pub struct Dimensions {
    pub large: bool,
    pub width: u32,
    pub height: u32,
}

// What the header says of the main picture's samples and coding.
#[derive(Clone, Copy, Debug, PartialEq, Eq)]
pub struct MainFormat {
    pub chroma: MiniChroma,
    pub format: SampleFormat,
    pub alpha_premultiplied: bool,
    pub explicit_cicp: Option<Cicp>,
    pub explicit_codec_types: Option<CodecTypes>,
}

// The gain map's part of the header, before the HDR boxes: blank where `present` is false. Here and in `Flags`, a field of the header stands beside
// what it brings or what repeats it (`float` and `format`, `subsampling` and `chroma`), since each is in the syntax table or made of its fields.
#[derive(Clone, Copy, Debug, PartialEq, Eq, Default)]
pub struct GainMapHeader {
    pub present: bool,
    pub same_dimensions: bool,
    pub width: u32,
    pub height: u32,
    pub matrix_coefficients: u8,
    pub full_range: bool,
    pub subsampling: u8,
    pub chroma: MiniChroma,
    pub float: bool,
    pub format: SampleFormat,
    pub tmap_icc: bool,
    pub tmap_explicit_cicp: bool,
    pub tmap_cicp: Option<TmapCicp>,
}

// The sizes of the chunks in bytes, with the flags for the long forms. What is absent is 0 and no None, since that is what an absent field reads as.
#[derive(Clone, Copy, Debug, PartialEq, Eq)]
pub struct ChunkSizes {
    pub large_metadata: bool,
    pub large_codec_config: bool,
    pub large_item_data: bool,
    pub icc: usize,
    pub tmap_icc: usize,
    pub gain_map_metadata: usize,
    pub gain_map_data: usize,
    pub gain_map_codec_config: usize,
    pub main_codec_config: usize,
    pub main_data: usize,
    pub alpha_data: usize,
    pub alpha_codec_config: usize,
    pub exif_xmp_compressed: bool,
    pub exif: usize,
    pub xmp: usize,
}

// Where each chunk lies, in the order in which they are stored; an absent one, where it would.
#[derive(Clone, Copy, Debug, PartialEq, Eq)]
pub struct ChunkSpans {
    pub main_codec_config: Span,
    pub alpha_codec_config: Span,
    pub gain_map_codec_config: Span,
    pub icc: Span,
    pub tmap_icc: Span,
    pub gain_map_metadata: Span,
    pub alpha_data: Span,
    pub gain_map_data: Span,
    pub main_data: Span,
    pub exif: Span,
    pub xmp: Span,
}

// All that stands before the chunks.
#[derive(Clone, Copy, Debug, PartialEq, Eq)]
pub struct Header {
    pub flags: Flags,
    pub dimensions: Dimensions,
    pub main: MainFormat,
    pub gain_map: GainMapHeader,
    pub hdr_boxes: MiniHdrBoxes,
    pub tmap_hdr: MiniHdrBoxes,
    pub sizes: ChunkSizes,
}

// The number of an item in the equivalent file (mini.rs, item_id). By a rule of the project the numbers 1 to 7 are constants of the item kind, and
// no cases of an enum.
#[derive(Clone, Copy, Debug, PartialEq, Eq)]
pub struct ItemKind(pub u16);

impl ItemKind {
    pub const MAIN: ItemKind = ItemKind(1);

    pub const ALPHA: ItemKind = ItemKind(2);

    pub const TMAP: ItemKind = ItemKind(3);

    pub const GAIN_MAP: ItemKind = ItemKind(4);

    pub const ALTR_GROUP: ItemKind = ItemKind(5);

    pub const EXIF: ItemKind = ItemKind(6);

    pub const XMP: ItemKind = ItemKind(7);
}

// Width and height.
#[derive(Clone, Copy, Debug, PartialEq, Eq)]
pub struct Size {
    pub width: u32,
    pub height: u32,
}

// What the desk check asks of a record, each by itself; the size is the one as shown.
#[derive(Clone, Copy, Debug, PartialEq, Eq)]
pub struct DisplayConditions {
    pub integer_samples: bool,
    pub no_gain_map: bool,
    pub exif_present: bool,
    pub width_fits: bool,
    pub height_fits: bool,
}

const MAX_DISPLAY_WIDTH: u32 = 1920;

const MAX_DISPLAY_HEIGHT: u32 = 1080;

// 0 where it is absent. A function, since an Option takes no method of this crate.
pub fn chunk_len(chunk: Chunk) -> usize
    ensures { result ≡ chunk_len chunk }
{
    chunk.map_or(0, |span| span.len)
}

// Integers of 0 bits, as in a blank record. A derive takes only a case without fields.
impl Default for SampleFormat {
    ghost use Rattle.std.specs.Prelude.{◌≡◌};
    ghost use Rattle.mini.specs.declared.SampleFormat.TheVariants.{Integer};

    ghost is_default = { λ f. f ≡ Integer 0 };

    fn default() -> Self {
        SampleFormat::Integer { bits: 0 }
    }
}

// No bodies. A derived one would fill the arrays byte by byte, and say less.
impl Default for MiniHdrBoxes {
    ghost use Rattle.std.specs.Prelude.{◌≡◌};
    ghost use Rattle.mini.specs.Blank.{blank_hdr_boxes};

    ghost is_default = { λ h. h ≡ blank_hdr_boxes };

    fn default() -> Self {
        MiniHdrBoxes {
            has_clli: false,
            has_mdcv: false,
            has_cclv: false,
            has_amve: false,
            has_reve: false,
            has_ndwt: false,
            clli: [0; 4],
            mdcv: [0; 24],
            cclv: [0; 37],
            amve: [0; 8],
            reve: [0; 20],
            ndwt: [0; 4],
        }
    }
}

// Absent: the fields of the blank record.
impl Default for MiniGainMap {
    ghost use Rattle.std.specs.Prelude.{◌≡◌};
    ghost use Rattle.mini.specs.Blank.{blank_gain_map};

    ghost is_default = { λ g. g ≡ blank_gain_map };

    fn default() -> Self {
        MiniGainMap {
            width: 0,
            height: 0,
            matrix_coefficients: 0,
            full_range: false,
            chroma: MiniChroma::default(),
            format: SampleFormat::default(),
            tmap_cicp: None,
            tmap_icc: None,
            tmap_hdr: MiniHdrBoxes::default(),
            metadata: Span::default(),
            codec_config: None,
            data: Span::default(),
        }
    }
}

impl SampleFormat {
    // The bits of a sample.
    pub fn bits(self) -> u8
        ensures { result ≡ bits_in self }
    {
        match self {
            SampleFormat::Integer { bits } | SampleFormat::Float { bits } => bits,
        }
    }

    pub fn is_float(self) -> bool
        ensures { result ≡ is_float self }
    {
        matches!(self, SampleFormat::Float { .. })
    }
}

impl MiniChroma {
    // 4:0:0.
    pub fn is_monochrome(self) -> bool
        ensures { result ≡ eqb self.subsampling 0 }
    {
        self.subsampling == 0
    }
}

// How many bytes follow a cclv's first. Flag by flag: `count_ones` of the last three takes twice as long where the processor's own count is not used.
#[tactic(auto, unfolding(crate::specs::Cclv::cclv_more))]
pub fn cclv_more(flags: u8) -> usize
    ensures value { result ≡ cclv_more flags }
    ensures upper_bound { result ≤ 36 }
{
    let f = usize::from(flags);
    24 * (f >> 5 & 1) + 4 * ((f >> 4 & 1) + (f >> 3 & 1) + (f >> 2 & 1))
}

// The values of Table O.3, with or without an ICC profile: two choices, as the table has them.
pub fn table_cicp(icc: bool, chroma: MiniChroma) -> Cicp
    ensures { result ≡ table_cicp icc chroma.subsampling }
{
    let (primaries, transfer) = if icc { (2, 2) } else { (1, 13) };
    let matrix = if chroma.is_monochrome() { 2 } else { 6 };
    Cicp {
        primaries,
        transfer,
        matrix,
    }
}

impl MinimizedImage {
    // The main picture's colour: explicit, else that of Table O.3.
    pub fn cicp(self) -> Cicp
        ensures { result ≡ cicp_of self }
    {
        self.explicit_cicp
            .unwrap_or(table_cicp(self.icc.is_some(), self.chroma))
    }

    // Width and height as shown: the orientations 5 to 8 exchange them.
    #[tactic(auto, using(crate::specs::ShownSize::exchanged, crate::specs::ShownSize::kept_below, crate::specs::ShownSize::kept_above))]
    pub fn shown_size(self) -> Size
        ensures { result ≡ shown_size self }
    {
        match self.orientation {
            5..=8 => Size {
                width: self.height,
                height: self.width,
            },
            _ => Size {
                width: self.width,
                height: self.height,
            },
        }
    }

    #[tactic(auto, unfolding(crate::specs::DisplayProfile::display_conditions))]
    pub fn display_conditions(self) -> DisplayConditions
        ensures { result ≡ display_conditions self }
    {
        let size = self.shown_size();
        DisplayConditions {
            integer_samples: !self.format.is_float(),
            no_gain_map: !self.has_gain_map,
            exif_present: self.exif.is_some(),
            width_fits: size.width <= MAX_DISPLAY_WIDTH,
            height_fits: size.height <= MAX_DISPLAY_HEIGHT,
        }
    }

    // Whether a display takes the picture as it is: the desk check.
    pub fn meets_display_profile(self) -> bool
        ensures { result ≡ meets_display_profile self }
    {
        let c = self.display_conditions();
        c.integer_samples && c.no_gain_map && c.exif_present && c.width_fits && c.height_fits
    }
}
