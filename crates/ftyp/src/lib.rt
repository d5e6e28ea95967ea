// The 'ftyp' of the equivalent file (ISO/IEC 23008-12, O.2.1.2): `equivalent_file_type` of mini.rs and `FileType::to_box` of ftyp.rs.
#![tactic(auto)]

pub mod read;

ghost use Rattle.std.specs.Prelude.{true, ◌≡◌, ◌+◌, ◌≤◌, length};
ghost use Rattle.octets.specs.Overwrite.{Wrote};
ghost use Rattle.ftyp.specs.FileType.{allowed, has_brand, renamed, major_of, file_type, added, added_len, file_type_body, file_type_body_len, file_type_box, file_type_len};

use boxes::{BOX_HEADER_LEN, FourCc, get_four_cc, put_boxed, put_four_cc};
use octets::{copy_in, put};

const MIF1: FourCc = 0x6D696631;

const MIF3: FourCc = 0x6D696633;

const TMAP: FourCc = 0x746D6170;

const VVI3: FourCc = 0x76766933;

const VVIC: FourCc = 0x76766963;

const FTYP: FourCc = 0x66747970;

// A file type, its compatible brands as they lie in the body of an 'ftyp': the bytes, or where in it they are.
#[derive(Clone, Copy, Debug, PartialEq, Eq)]
pub struct FileType<B> {
    pub major_brand: FourCc,
    pub minor_version: u32,
    pub compatible_brands: B,
}

// The file type of the equivalent file. Its brands are those of the original, and after them those that the flags name. The flags are the
// definition's (specs/FileType), which leaves the list where it is lent; so the brands stay a parameter, with a clause of their own, here and in
// expander.
#[derive(Clone, Copy, Debug, PartialEq, Eq)]
pub struct EquivalentFileType {
    pub major_brand: FourCc,
    pub minor_version: u32,
    pub add_mif3: bool,
    pub add_mif1: bool,
    pub add_tmap: bool,
}

// Whether a brand list is allowed: refusal 15 does not apply.
#[tactic(auto, unfolding(crate::specs::FileType::allowed))]
pub fn allowed(brands: &[u8]) -> bool
    ensures { result ≡ allowed brands.now }
{
    brands.len() % 4 == 0 && brands.len() <= 4096
}

// A loop that ends at the brand: with `any` over the pieces the goal stays open.
#[tactic(auto, using(crate::specs::FileTypeLaws::brand_found, crate::specs::FileTypeLaws::brand_later, crate::specs::FileTypeLaws::no_brand))]
fn has_brand(brands: &[u8], b: FourCc) -> bool
    ensures { result ≡ has_brand brands.now b }
{
    for code in brands.chunks_exact(4) {
        if get_four_cc(code, 0) == b {
            return true;
        }
    }
    false
}

// Two numbers, here and below: a `FileType` that lends is read by its `entry` in each clause.
#[tactic(auto, unfolding(crate::specs::FileType::renamed))]
fn renamed(major: FourCc, minor: u32) -> bool
    ensures { result ≡ renamed major minor }
{
    major == MIF3 && minor != 0
}

#[tactic(auto, unfolding(crate::specs::FileType::major_of))]
fn major_of(major: FourCc, minor: u32) -> FourCc
    ensures { result ≡ major_of major minor }
{
    if !renamed(major, minor) {
        major
    } else if minor == VVI3 {
        VVIC
    } else {
        minor
    }
}

// The three brands differ, so the list as it is lent decides on each.
#[tactic(auto, unfolding(crate::specs::FileType::file_type))]
pub fn equivalent_file_type(original: FileType<&[u8]>, gain_map: bool) -> EquivalentFileType
    ensures { let t = original.entry in result ≡ file_type t.major_brand t.minor_version gain_map t.compatible_brands.now }
{
    let brands = original.compatible_brands;
    EquivalentFileType {
        major_brand: major_of(original.major_brand, original.minor_version),
        minor_version: 0,
        add_mif3: renamed(original.major_brand, original.minor_version) && !has_brand(brands, MIF3),
        add_mif1: !has_brand(brands, MIF1),
        add_tmap: gain_map && !has_brand(brands, TMAP),
    }
}

// An `if`, as in items (`len_if`).
#[tactic(auto, using(octets::specs::OverwriteLaws::nothing))]
fn put_added(out: &mut [u8], at: usize, add: bool, b: FourCc) -> usize
    requires { at + added_len add ≤ length out.old }
    ensures { Wrote out.old at (added_len add) (added add b) out.new result }
{
    if add { put_four_cc(out, at, b) } else { at }
}

#[tactic(auto, using(octets::specs::OverwriteLaws::writes), unfolding(crate::specs::FileType::file_type_body))]
fn put_body(out: &mut [u8], file_type: EquivalentFileType, brands: &[u8]) -> usize
    requires { file_type_body_len file_type brands.now ≤ length out.old }
    ensures { Wrote out.old 0 (file_type_body_len file_type brands.now) (file_type_body file_type brands.now) out.new result }
{
    let at = put_four_cc(out, 0, file_type.major_brand);
    let at = put::<4>(out, at, u64::from(file_type.minor_version));
    let at = copy_in(out, at, brands);
    let at = put_added(out, at, file_type.add_mif3, MIF3);
    let at = put_added(out, at, file_type.add_mif1, MIF1);
    put_added(out, at, file_type.add_tmap, TMAP)
}

// The 'ftyp' box of a file type, with the brands lent.
#[tactic(auto, using(boxes::specs::Boxed::boxes, crate::specs::FileTypeLaws::allowed_short, crate::specs::FileTypeLaws::file_type_most), unfolding(crate::specs::FileType::file_type_box))]
pub fn put_ftyp(out: &mut [u8], at: usize, file_type: EquivalentFileType, brands: &[u8]) -> usize
    requires room { at + file_type_len file_type brands.now ≤ length out.old }
    requires allowed { allowed brands.now ≡ true }
    ensures { Wrote out.old at (file_type_len file_type brands.now) (file_type_box file_type brands.now) out.new result }
{
    put_boxed(out, at, FTYP, |part| put_body(part, file_type, brands))
}

// The definition's choice between two numbers, plainer than a flag as a number times four.
fn added_len(add: bool) -> usize
    ensures { (result ≡ added_len add) × (result ≤ 4) }
{
    if add { 4 } else { 0 }
}

// How many bytes `put_ftyp` writes.
#[tactic(auto, using(crate::specs::FileTypeLaws::allowed_short))]
pub fn ftyp_len(file_type: EquivalentFileType, brands: &[u8]) -> usize
    requires { allowed brands.now ≡ true }
    ensures { (result ≡ file_type_len file_type brands.now) × (result ≤ 4124) }
{
    BOX_HEADER_LEN
        + 8
        + brands.len()
        + added_len(file_type.add_mif3)
        + added_len(file_type.add_mif1)
        + added_len(file_type.add_tmap)
}
