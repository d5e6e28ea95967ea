// The payload of an 'ftyp' box read: `FileType::parse` of ftyp.rs.
ghost use Rattle.std.specs.Prelude.{◌≡◌};
ghost use Rattle.ftyp.specs.ReadFileType.{number, number_not_zero, read_file_type};

use crate::{FileType, allowed};
use boxes::get_four_cc;
use octets::{Span, get};
use refusals::Refusal;

// The body is no original file type: it is shorter than its two numbers, or its brands are no list that expanding allows.
#[derive(Clone, Copy, Debug, PartialEq, Eq)]
pub struct FileTypeError;

impl Refusal for FileTypeError {
    ghost number = { number };

    ghost not_zero = { number_not_zero };

    fn number(self) -> u8 {
        28
    }

    fn value(self) -> usize {
        0
    }
}

// The file type of a body, for every body.
#[tactic(auto, unfolding(crate::specs::ReadFileType::read_file_type))]
pub fn read_file_type(body: &[u8]) -> Result<FileType<Span>, FileTypeError>
    ensures { result ≡ read_file_type body.now }
{
    if body.len() < 8 || !allowed(&body[8..]) {
        return Err(FileTypeError);
    }
    Ok(FileType {
        major_brand: get_four_cc(body, 0),
        minor_version: get::<4>(body, 4) as u32,
        compatible_brands: Span {
            at: 8,
            len: body.len() - 8,
        },
    })
}
