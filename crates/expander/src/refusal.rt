// Whether a record expands: refusals 10 to 15.
ghost use Rattle.std.specs.Prelude.{◌≡◌, ◌≤◌, true, IfOk};
ghost use Rattle.ftyp.specs.FileType.{allowed};
ghost use Rattle.expander.specs.Placed.{Fit};
ghost use Rattle.expander.specs.Outcome.{is_uuid, number, number_not_zero, value_in, refusal_in, refusal_of};

use boxes::UUID;
use ftyp::allowed;
use mini::{CodecTypes, MinimizedImage};
use refusals::Refusal;
use writer::checks::well_placed;
use writer::is_writable;

// Why a record is not expanded. Three cases are writing's too; a case that holds a `WriteError` would report a file that is too short as a refusal
// of writing.
#[derive(Clone, Copy, Debug, PartialEq, Eq)]
pub enum ExpandError {
    // A present chunk passes the end of the source.
    Misplaced,
    // No payload reads to the record.
    Unwritable,
    // Alpha is set, and the alpha data is empty.
    NativeAlpha,
    // An explicit codec type is 'uuid'.
    UuidCodecType,
    // There are no explicit codec types.
    NoCodecTypes,
    // The brand list isn't a multiple of 4 bytes, or is over 4,096 bytes.
    BrandList,
    // The output is shorter than the file.
    TooShort { needed: usize },
}

impl Refusal for ExpandError {
    ghost number = { number };

    ghost value = { value_in };

    ghost not_zero = { number_not_zero };

    // A case that holds a length has no number by `as`; and here and below, the `match` is the definition's table.
    fn number(self) -> u8 {
        match self {
            ExpandError::Misplaced => 10,
            ExpandError::Unwritable => 11,
            ExpandError::NativeAlpha => 12,
            ExpandError::UuidCodecType => 13,
            ExpandError::NoCodecTypes => 14,
            ExpandError::BrandList => 15,
            ExpandError::TooShort { .. } => 16,
        }
    }

    fn value(self) -> usize {
        match self {
            ExpandError::TooShort { needed } => needed,
            _ => 0,
        }
    }
}

fn is_uuid(types: Option<CodecTypes>) -> bool
    ensures { result ≡ is_uuid types }
{
    types.is_some_and(|t| t.infe_type == UUID || t.codec_config_type == UUID)
}

// The first of the reasons not to expand a record, in the order of their numbers, if there is one. A row of `if`s: over a list, each test would be
// made, where the first that applies decides.
#[tactic(auto, unfolding(crate::specs::Outcome::refusal_of))]
pub fn check(image: MinimizedImage, source: &[u8], brands: &[u8]) -> Result<(), ExpandError>
    ensures value { refusal_in result ≡ refusal_of image source.now brands.now }
    ensures upper_bound { refusal_in result ≤ 15 }
    ensures fit { IfOk result (λ _. Fit image source.now) }
    ensures allowed { IfOk result (λ _. allowed brands.now ≡ true) }
{
    if !well_placed(image, source) {
        return Err(ExpandError::Misplaced);
    }
    if !is_writable(image) {
        return Err(ExpandError::Unwritable);
    }
    if image.alpha && image.alpha_data.len == 0 {
        return Err(ExpandError::NativeAlpha);
    }
    if is_uuid(image.explicit_codec_types) {
        return Err(ExpandError::UuidCodecType);
    }
    if image.explicit_codec_types.is_none() {
        return Err(ExpandError::NoCodecTypes);
    }
    if !allowed(brands) {
        return Err(ExpandError::BrandList);
    }
    Ok(())
}
