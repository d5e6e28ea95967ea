// Expanding, for every record, source, original file type and output. Record and source stay two parameters: a struct that lends is read by its
// `entry` in each clause, as `original` is.
ghost use Rattle.std.specs.Prelude.{◌≡◌, true, ◌+◌, ◌≤◌, ◌<◌, take, IfOk};
ghost use Rattle.ftyp.specs.FileType.{allowed, file_type_len};
ghost use Rattle.slots.specs.Sound.{Bounded};
ghost use Rattle.expander.specs.EquivalentFile.{item_bytes, meta_body_len};
ghost use Rattle.expander.specs.LocationsInFile.{EveryByte};
ghost use Rattle.expander.specs.Placed.{DataBounded, Fit};
ghost use Rattle.expander.specs.Plan.{file_plan};
ghost use Rattle.expander.specs.Outcome.{refusal_in, refusal_of, outcome_of, expanded, expanded_len};

use crate::file::{FilePlan, meta_body_len, put_file};
use crate::item_data::data_lengths;
use crate::refusal::{ExpandError, check};
use boxes::BOX_HEADER_LEN;
use ftyp::{EquivalentFileType, FileType, equivalent_file_type, ftyp_len};
use mini::MinimizedImage;

// Where mdat's content begins.
pub fn content_start(image: MinimizedImage, t: EquivalentFileType, brands: &[u8]) -> usize
    requires { Bounded image × (DataBounded image × (allowed brands.now ≡ true)) }
    ensures { (result ≡ file_type_len t brands.now + (8 + meta_body_len image) + 8) × (result ≤ 2116000) }
{
    let meta_len = BOX_HEADER_LEN + meta_body_len(image, data_lengths(image));
    ftyp_len(t, brands) + meta_len + BOX_HEADER_LEN
}

#[tactic(auto, using(crate::specs::Placed::content_most))]
fn plan(
    image: MinimizedImage,
    source: &[u8],
    original: FileType<&[u8]>,
) -> Result<FilePlan, ExpandError>
    ensures refusal { refusal_in result ≡ refusal_of image source.now original.entry.compatible_brands.now }
    ensures plan { let t = original.entry in IfOk result (λ p. p ≡ file_plan image t.major_brand t.minor_version t.compatible_brands.now) }
    ensures bound { IfOk result (λ p. p.content_start ≤ 2116000) }
    ensures fit { IfOk result (λ _. Fit image source.now) }
    ensures allowed { IfOk result (λ _. allowed original.entry.compatible_brands.now ≡ true) }
{
    check(image, source, original.compatible_brands)?;
    let file_type = equivalent_file_type(original, image.has_gain_map);
    let content_start = content_start(image, file_type, original.compatible_brands);
    Ok(FilePlan {
        file_type,
        content_start,
        len: content_start + data_lengths(image).total(),
    })
}

// The length of the equivalent file: what `equivalent_file` needs, without an output.
#[tactic(auto, using(crate::specs::OutcomeLaws::len_refused, crate::specs::OutcomeLaws::len_planned))]
pub fn equivalent_file_len(
    image: MinimizedImage,
    source: &[u8],
    original: FileType<&[u8]>,
) -> Result<usize, ExpandError>
    ensures { let t = original.entry in outcome_of result ≡ expanded_len image source.now t.major_brand t.minor_version t.compatible_brands.now }
{
    plan(image, source, original).map(|p| p.len)
}

// The equivalent file of a record whose chunks lie in `source`, from the output's first byte on; its length. `original` is the file type of
// the file that the record comes from.
#[tactic(auto, using(crate::specs::Placed::content_most))]
pub fn equivalent_file(
    image: MinimizedImage,
    source: &[u8],
    original: FileType<&[u8]>,
    out: &mut [u8],
) -> Result<usize, ExpandError>
    ensures answer { let t = original.entry in (outcome_of result, out.new) ≡ expanded image source.now t.major_brand t.minor_version t.compatible_brands.now out.old }
    ensures every_byte { IfOk result (λ len. EveryByte (item_bytes image source.now) (take len out.new)) }
    ensures bounds { ((outcome_of result).refusal ≤ 16) × ((outcome_of result).value < 4294967296) }
{
    let plan = plan(image, source, original)?;
    if out.len() < plan.len {
        return Err(ExpandError::TooShort { needed: plan.len });
    }
    put_file(out, image, source, original.compatible_brands, plan);
    Ok(plan.len)
}
