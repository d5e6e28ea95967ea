// Reading a MinimizedImageBox payload to its record: `MinimizedImage::parse` of mini.rs.
#![tactic(auto)]

ghost use Rattle.std.specs.Prelude.{◌≡◌};
ghost use Rattle.mini.specs.Read.{reading_of, read_mini};
ghost use Rattle.reader.specs.ReadingParts.{number_and_bit, without_record};

pub mod chunks;
pub mod image;

use bits::{Bits, ReadError};
use header_reader::read_header;
use header_reader::sizes::read_trailing_bits;
use image::{chunk_past_end, read_chunks};
use mini::MinimizedImage;

// The record of a payload, or why it is refused.
pub fn parse(payload: &[u8]) -> Result<MinimizedImage, ReadError>
    ensures { reading_of result ≡ read_mini payload.now }
{
    let (header, b) = read_header(Bits::new(), payload);
    read_chunks(read_trailing_bits(b, payload).place()?, payload, header)
}

// Why a payload is refused, without its record: None where it is accepted. The diagnosis asks for no more, and so `parse` has one caller in its
// library (docs/DECISIONS.md, 19).
pub fn refusal(payload: &[u8]) -> Option<ReadError>
    ensures { number_and_bit result ≡ without_record (read_mini payload.now) }
{
    let (header, b) = read_header(Bits::new(), payload);
    match read_trailing_bits(b, payload).place() {
        Ok(at) => chunk_past_end(at, payload, header),
        Err(error) => Some(error),
    }
}
