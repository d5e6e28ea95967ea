// From an equivalent file back to its mini (document 02, 3).
#![tactic(auto)]

pub mod restore;

ghost use Rattle.std.specs.Prelude.{◌≡◌};
ghost use Rattle.found.specs.Expansion.{expands_to_source};
ghost use Rattle.find_mini.specs.BackToMini.{number, number_not_zero, back_to_mini};
ghost use Rattle.find_mini.specs.Finds.{Finds};

use expander::refusal::check;
use file_match::file::is_equivalent_file;
use find_record::record::found_record;
use ftyp::{FileType, allowed};
use mini::MinimizedImage;
use refusals::Refusal;

// Why no record is found in a file. Each case's value is the number of its refusal.
#[derive(Clone, Copy, Debug, PartialEq, Eq)]
pub enum FindError {
    // The list of brands is no number of whole codes, or too long.
    BrandList = 15,
    // No record with its codec types named expands to the file under the original file type.
    NotAnExpansion = 17,
}

impl Refusal for FindError {
    ghost number = { number };

    ghost not_zero = { number_not_zero };

    fn number(self) -> u8 {
        self as u8
    }

    fn value(self) -> usize {
        0
    }
}

// Whether a record whose chunks lie in a file expands to that file.
#[tactic(auto, unfolding(found::specs::Expansion::expands_to_source))]
fn expands_to(image: MinimizedImage, file: &[u8], original: FileType<&[u8]>) -> bool
    ensures { let t = original.entry in result ≡ expands_to_source image file.now t.major_brand t.minor_version t.compatible_brands.now }
{
    match check(image, file, original.compatible_brands) {
        Ok(()) => is_equivalent_file(file, image, original),
        Err(_) => false,
    }
}

// The record found in a file, if it expands to the file, for every file and every original file type. Its chunks lie in the file.
#[tactic(auto, using(crate::proofs::Finds::finds_none), unfolding(crate::specs::BackToMini::back_to_mini))]
pub fn find_mini(file: &[u8], original: FileType<&[u8]>) -> Result<MinimizedImage, FindError>
    ensures answer { let t = original.entry in result ≡ back_to_mini file.now t.major_brand t.minor_version t.compatible_brands.now }
    ensures finds { let t = original.entry in Finds file.now t.major_brand t.minor_version t.compatible_brands.now result }
{
    if !allowed(original.compatible_brands) {
        return Err(FindError::BrandList);
    }
    let image = found_record(file);
    if expands_to(image, file, original) {
        Ok(image)
    } else {
        Err(FindError::NotAnExpansion)
    }
}
