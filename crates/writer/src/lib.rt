// Writing a record as a 'mini' box: `MinimizedImage::to_box` of mini.rs.
#![tactic(auto)]

ghost use Rattle.std.specs.Prelude.{◌≡◌, T, is_some, length, unwrap_or};
ghost use Rattle.mini.specs.Write.{header_of, writable};
ghost use Rattle.writer.specs.Outcome.{number, number_not_zero, value_in, outcome_of};
ghost use Rattle.writer.specs.Needed.{Needed};
ghost use Rattle.writer.specs.ToBox.{HeaderHeld, HeaderOf, written, answer};

pub mod checks;
pub mod chunks;

use bit_writer::BitWriter;
use boxes::{BOX_HEADER_LEN, FourCc};
use header_writer::header::put_header;
use mini::MinimizedImage;
use record_header::{header_of, not_empty};
use refusals::Refusal;

const MINI: FourCc = 0x6D696E69;

// Refusals 10, 11 and 16, the last with the length that the box needs. By `match` below: a case with a field cannot be cast to its number, and only
// one has a length.
#[derive(Clone, Copy, Debug, PartialEq, Eq)]
pub enum WriteError {
    Misplaced,
    Unwritable,
    TooShort { needed: usize },
}

impl Refusal for WriteError {
    ghost number = { number };

    ghost value = { value_in };

    ghost not_zero = { number_not_zero };

    fn number(self) -> u8 {
        match self {
            WriteError::Misplaced => 10,
            WriteError::Unwritable => 11,
            WriteError::TooShort { .. } => 16,
        }
    }

    fn value(self) -> usize {
        match self {
            WriteError::TooShort { needed } => needed,
            _ => 0,
        }
    }
}

// A record's header, from the buffer's first byte on: its length, or None where no payload holds the record (refusal 11). The buffer is the
// caller's own, of a fixed size since there is no heap: no header is longer than 251 bytes. `&`, not `&&`, which to the prover is a branch.
fn put_header_bytes(out: &mut [u8; 256], i: MinimizedImage) -> Option<usize>
    ensures { HeaderOf i out.new (unwrap_or result 0) (is_some result) }
{
    let w = put_header(BitWriter::new(0), out, header_of(i)).align(out);
    let full = not_empty(i.alpha_codec_config) & not_empty(i.gain_map.codec_config);
    (w.fits & full).then_some(w.at.0)
}

// Refusal 11's opposite, for callers that write no box.
pub fn is_writable(image: MinimizedImage) -> bool
    ensures { result ≡ writable image }
{
    put_header_bytes(&mut [0; 256], image).is_some()
}

// The length of the box: the chunks laid over no output tell it.
fn box_len(i: MinimizedImage, source: &[u8], header: &[u8]) -> usize
    requires writable { T (writable i) }
    requires held { HeaderHeld (header_of i) header.now (length header.now) }
    ensures { Needed i source.now result }
{
    chunks::put_chunks(&mut [], BOX_HEADER_LEN + header.len(), source, i)
}

// The box of a record that can be written, and its length. The header comes in a buffer of its own: an output that is too short keeps its bytes.
fn write_box(
    i: MinimizedImage,
    source: &[u8],
    out: &mut [u8],
    header: &[u8],
) -> Result<usize, WriteError>
    requires writable { T (writable i) }
    requires held { HeaderHeld (header_of i) header.now (length header.now) }
    ensures { (outcome_of result, out.new) ≡ written i source.now out.old }
{
    let needed = box_len(i, source, header);
    if out.len() < needed {
        return Err(WriteError::TooShort { needed });
    }
    let at = octets::copy_in(out, BOX_HEADER_LEN, header);
    chunks::put_chunks(out, at, source, i);
    boxes::put_box_header(out, 0, needed - BOX_HEADER_LEN, MINI);
    Ok(needed)
}

// The box of a record whose chunks lie in `source`, from the output's first byte on; its length.
pub fn to_box(image: MinimizedImage, source: &[u8], out: &mut [u8]) -> Result<usize, WriteError>
    ensures { (outcome_of result, out.new) ≡ answer image source.now out.old }
{
    if !checks::well_placed(image, source) {
        return Err(WriteError::Misplaced);
    }
    let mut header = [0; 256];
    let Some(len) = put_header_bytes(&mut header, image) else {
        return Err(WriteError::Unwritable);
    };
    write_box(image, source, out, &header[..len])
}
