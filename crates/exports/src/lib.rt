// The exported functions, on numbers and byte slices, as Rust programs call them; `exports_c` gives them to C. docs/ABI.md has their numbers and
// layouts.
#![tactic(auto)]

pub mod answer;

ghost use Rattle.boxes.specs.Find.{find_box};
ghost use Rattle.boxes.specs.Header.{header_at, header_refusal, header_or_blank};
ghost use Rattle.expander.specs.EquivalentFile.{file};
ghost use Rattle.exports.specs.Answer.{Answered, expand_refusal};
ghost use Rattle.ftyp.specs.ReadFileType.{read_file_type, file_type_or_blank, file_type_refusal};
ghost use Rattle.mini.specs.Read.{read_mini};
ghost use Rattle.layout.specs.CheckBytes.{check_bytes};
ghost use Rattle.layout.specs.FileTypeBytes.{file_type_bytes};
ghost use Rattle.layout.specs.HeaderBytes.{header_bytes};
ghost use Rattle.record_layout.specs.RecordBytes.{record_bytes};
ghost use Rattle.writer.specs.ToBox.{box_of};

use boxes::find::find_box;
use boxes::{BoxHeader, HeaderError, parse_box_header};
use expander::entry::equivalent_file;
use ftyp::FileType;
use ftyp::read::read_file_type;
use layout::check::{CHECK_LEN, put_check};
use layout::file_type::{FILE_TYPE_LEN, put_file_type};
use layout::header::{HEADER_LEN, put_header};
use reader::parse;
use record_layout::{put_record, record_len};
use rewriter::rewrite;

// Hands out the header that was read, or refuses.
#[tactic(auto, using(crate::specs::AnswerLaws::refuses))]
fn answer_header(read: Result<BoxHeader, HeaderError>, out: &mut [u8]) -> u64
    ensures { Answered (header_refusal read) 0 (header_bytes (header_or_blank read)) out.old out.new result }
{
    match read {
        Ok(header) => answer::hand_out(HEADER_LEN, out, |out| put_header(out, 0, header)),
        Err(error) => answer::refused(error),
    }
}

// Reads the header of the box at `start` of `buf`, for every buffer and every start.
pub fn bustardcase_box_header(buf: &[u8], start: usize, out: &mut [u8]) -> u64
    ensures { Answered (header_refusal (header_at buf.now start)) 0 (header_bytes (header_or_blank (header_at buf.now start))) out.old out.new result }
{
    answer_header(parse_box_header(buf, start), out)
}

// Reads a payload to its record, for every payload.
#[tactic(auto, using(crate::specs::AnswerLaws::refuses, crate::specs::AnswerLaws::bit_fits))]
pub fn bustardcase_read(payload: &[u8], out: &mut [u8]) -> u64
    ensures { Answered (read_mini payload.now).refusal (read_mini payload.now).bit (record_bytes (read_mini payload.now).image) out.old out.new result }
{
    match parse(payload) {
        Ok(image) => answer::hand_out(record_len(image), out, |out| put_record(out, 0, image)),
        Err(error) => answer::refused(error),
    }
}

// Writes the record of a payload as a box, in its shortest form, for every payload.
pub fn bustardcase_rewrite(payload: &[u8], out: &mut [u8]) -> u64
    ensures { Answered (read_mini payload.now).refusal (read_mini payload.now).bit (box_of (read_mini payload.now).image payload.now) out.old out.new result }
{
    answer::of_written(rewrite(payload, out))
}

// Writes the equivalent file of the record of a payload, for every payload and every original file type.
#[tactic(auto, using(crate::specs::AnswerLaws::bit_fits))]
pub fn bustardcase_expand(
    payload: &[u8],
    major: u32,
    minor: u32,
    brands: &[u8],
    out: &mut [u8],
) -> u64
    ensures { Answered (expand_refusal payload.now brands.now) (read_mini payload.now).bit (file (read_mini payload.now).image payload.now major minor brands.now) out.old out.new result }
{
    match parse(payload) {
        Ok(image) => {
            let original = FileType {
                major_brand: major,
                minor_version: minor,
                compatible_brands: brands,
            };
            answer::of_written(equivalent_file(image, payload, original, out))
        }
        Err(error) => answer::refused(error),
    }
}

// Finds the first box of a type among the boxes that follow one another from the start of `buf`, for every buffer and every type.
pub fn bustardcase_find_box(buf: &[u8], box_type: u32, out: &mut [u8]) -> u64
    ensures { Answered (header_refusal (find_box box_type buf.now)) 0 (header_bytes (header_or_blank (find_box box_type buf.now))) out.old out.new result }
{
    answer_header(find_box(buf, box_type), out)
}

// Reads the file type of the payload of an 'ftyp' box, for every payload.
#[tactic(auto, using(crate::specs::AnswerLaws::refuses))]
pub fn bustardcase_file_type(body: &[u8], out: &mut [u8]) -> u64
    ensures { Answered (file_type_refusal (read_file_type body.now)) 0 (file_type_bytes (file_type_or_blank (read_file_type body.now))) out.old out.new result }
{
    match read_file_type(body) {
        Ok(parsed) => answer::hand_out(FILE_TYPE_LEN, out, |out| put_file_type(out, 0, parsed)),
        Err(error) => answer::refused(error),
    }
}

// Checks the record of a payload against what a display takes, for every payload.
#[tactic(auto, using(crate::specs::AnswerLaws::refuses, crate::specs::AnswerLaws::bit_fits))]
pub fn bustardcase_check(payload: &[u8], out: &mut [u8]) -> u64
    ensures { Answered (read_mini payload.now).refusal (read_mini payload.now).bit (check_bytes (read_mini payload.now).image) out.old out.new result }
{
    match parse(payload) {
        Ok(image) => answer::hand_out(CHECK_LEN, out, |out| put_check(out, 0, image)),
        Err(error) => answer::refused(error),
    }
}
