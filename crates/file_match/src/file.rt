// The boxes of the file. What is no chunk is written by the functions that write a file, one box or a few at a time, into so many bytes as the number at
// the call of `match_written` says: the most that it takes. `Bodies` stands in clauses where a box's length is compared before its body: in
// definitions an array is a list of any length.
ghost use Rattle.std.specs.Prelude.{◌≡◌, true, ◌++◌, ◌+◌, ◌<◌, Some};
ghost use Rattle.bits.specs.Format.{is_list};
ghost use Rattle.ftyp.specs.FileType.{allowed, file_type_box};
ghost use Rattle.items.specs.ItemLocations.{data_len};
ghost use Rattle.slots.specs.Associations.{iprp};
ghost use Rattle.slots.specs.Bodies.{Bodies};
ghost use Rattle.slots.specs.Slots.{ipco};
ghost use Rattle.slots.specs.Sound.{Sound};
ghost use Rattle.expander.specs.EquivalentFile as equivalent;
ghost use Rattle.expander.specs.EquivalentFile.{data_lengths, meta_body, meta, mdat};
ghost use Rattle.expander.specs.Placed.{Fit};
ghost use Rattle.matching.specs.Matched.{matched};

use crate::content::match_item_data;
use crate::header::match_box_header;
use crate::slot_table::{match_slots, properties};
use boxes::{BOX_HEADER_LEN, put_full_box_header};
use expander::entry::content_start;
use expander::file::{MDAT, META, item_set, meta_body_len, put_item_boxes};
use expander::item_data::data_lengths;
use ftyp::{EquivalentFileType, FileType, equivalent_file_type, put_ftyp};
use items::group::put_grpl;
use items::locations::put_iloc;
use matching::match_written;
use mini::MinimizedImage;
use slots::associations::put_ipma;
use slots::groups::IPCO;
use slots::iprp::IPRP;
use slots::lengths::{ipco_body_len, ipma_len};

#[tactic(auto, using(matching::specs::MatchedLaws::written_first, ftyp::specs::FileTypeLaws::file_type_most, ftyp::specs::FileTypeLaws::allowed_short))]
fn match_ftyp(file: &[u8], at: usize, file_type: EquivalentFileType, brands: &[u8]) -> Option<usize>
    requires { allowed brands.now ≡ true }
    ensures { result ≡ matched file.now (Some at) (file_type_box file_type brands.now) }
{
    match_written::<4124, _>(file, at, |out| put_ftyp(out, 0, file_type, brands))
}

#[tactic(auto, using(matching::specs::MatchedLaws::pieces, matching::specs::MatchedLaws::matched_within, slots::specs::LengthLaws::length_slots), unfolding(slots::specs::Slots::ipco, boxes::specs::Boxed::boxed))]
fn match_ipco(file: &[u8], at: usize, image: MinimizedImage) -> Option<usize>
    requires sound { Sound image file.now }
    requires bodies { Bodies image.hdr_boxes × Bodies image.gain_map.tmap_hdr }
    ensures { result ≡ matched file.now (Some at) (ipco image file.now) }
{
    let at = match_box_header(file, at, ipco_body_len(image), IPCO)?;
    match_slots(file, at, &properties(image))
}

#[tactic(auto, using(matching::specs::MatchedLaws::pieces, slots::specs::LengthLaws::iprp_lengths, slots::specs::SlotLaws::used_slots_lem, slots::proofs::Laws::ipma_bounds), unfolding(slots::specs::Associations::ipma, slots::specs::Associations::iprp, boxes::specs::Boxed::boxed))]
fn match_iprp(file: &[u8], at: usize, image: MinimizedImage) -> Option<usize>
    requires sound { Sound image file.now }
    requires bodies { Bodies image.hdr_boxes × Bodies image.gain_map.tmap_hdr }
    ensures { result ≡ matched file.now (Some at) (iprp image file.now) }
{
    let len = BOX_HEADER_LEN + ipco_body_len(image) + ipma_len(image);
    let at = match_box_header(file, at, len, IPRP)?;
    let at = match_ipco(file, at, image)?;
    match_written::<62, _>(file, at, |out| put_ipma(out, 0, image))
}

#[tactic(auto, using(matching::specs::MatchedLaws::pieces, items::specs::ItemInfo::iinf_most, items::specs::ItemReferences::iref_most, items::specs::ItemGroup::grpl_most, items::specs::ItemLocations::iloc_most), unfolding(expander::specs::EquivalentFile::meta_body))]
fn match_meta_body(file: &[u8], at: usize, image: MinimizedImage, base: usize) -> Option<usize>
    requires fits { Fit image file.now × (base + data_len (data_lengths image) < 4294967296) }
    requires bodies { Bodies image.hdr_boxes × Bodies image.gain_map.tmap_hdr }
    ensures { result ≡ matched file.now (Some at) (meta_body image file.now base) }
{
    let set = item_set(image);
    let at = match_written::<4, _>(file, at, |out| put_full_box_header(out, 0, 0, 0))?;
    let at = match_written::<299, _>(file, at, |out| put_item_boxes(out, 0, set))?;
    let at = match_iprp(file, at, image)?;
    let at = match_written::<36, _>(file, at, |out| put_grpl(out, 0, set))?;
    match_written::<112, _>(file, at, |out| put_iloc(out, 0, base, data_lengths(image)))
}

#[tactic(auto, using(matching::specs::MatchedLaws::pieces, expander::specs::FileLength::body_lengths), unfolding(expander::specs::EquivalentFile::meta, boxes::specs::Boxed::boxed))]
fn match_meta(file: &[u8], at: usize, image: MinimizedImage, base: usize) -> Option<usize>
    requires fits { Fit image file.now × (base + data_len (data_lengths image) < 4294967296) }
    requires bodies { Bodies image.hdr_boxes × Bodies image.gain_map.tmap_hdr }
    ensures { result ≡ matched file.now (Some at) (meta image file.now base) }
{
    let len = meta_body_len(image, data_lengths(image));
    let at = match_box_header(file, at, len, META)?;
    match_meta_body(file, at, image, base)
}

#[tactic(auto, using(matching::specs::MatchedLaws::pieces, expander::specs::FileLength::body_lengths, expander::specs::Placed::content_most), unfolding(expander::specs::EquivalentFile::mdat, boxes::specs::Boxed::boxed))]
fn match_mdat(file: &[u8], at: usize, image: MinimizedImage) -> Option<usize>
    requires { Fit image file.now }
    ensures { result ≡ matched file.now (Some at) (mdat image file.now) }
{
    let at = match_box_header(file, at, data_lengths(image).total(), MDAT)?;
    match_item_data(file, at, image)
}

#[tactic(auto, using(matching::specs::MatchedLaws::pieces))]
fn match_boxes(
    file: &[u8],
    image: MinimizedImage,
    file_type: EquivalentFileType,
    brands: &[u8],
    base: usize,
) -> Option<usize>
    requires fits { Fit image file.now × (base + data_len (data_lengths image) < 4294967296) }
    requires bodies { Bodies image.hdr_boxes × Bodies image.gain_map.tmap_hdr }
    requires allowed { allowed brands.now ≡ true }
    ensures { result ≡ matched file.now (Some 0) (file_type_box file_type brands.now ++ meta image file.now base ++ mdat image file.now) }
{
    let at = match_ftyp(file, 0, file_type, brands)?;
    let at = match_meta(file, at, image, base)?;
    match_mdat(file, at, image)
}

// Each box has to stand where the one before it ends, and the last has to end where the file does.
#[tactic(auto, using(crate::proofs::Whole::is_whole, expander::specs::OutcomeLaws::file_boxes, expander::specs::Placed::content_most))]
pub fn is_equivalent_file(file: &[u8], image: MinimizedImage, original: FileType<&[u8]>) -> bool
    requires { Fit image file.now × (allowed original.compatible_brands.now ≡ true) }
    ensures { let t = original.entry in result ≡ is_list (equivalent.file image file.now t.major_brand t.minor_version t.compatible_brands.now) file.now }
{
    let file_type = equivalent_file_type(original, image.has_gain_map);
    let base = content_start(image, file_type, original.compatible_brands);
    let end = match_boxes(file, image, file_type, original.compatible_brands, base);
    end == Some(file.len())
}
