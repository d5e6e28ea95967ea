// The C functions that go back from an equivalent file to its mini. They are a library of their own: in one library with `exports` the writer and the
// checks of a record would have a second caller, and the compiler would no longer merge them into the first (docs/DECISIONS.md, 19).
#![tactic(auto)]

ghost use Rattle.exports.specs.Answer.{Answered};
ghost use Rattle.find_mini.specs.BackToMini.{find_refusal, record_or_blank, back_to_mini};
ghost use Rattle.record_layout.specs.RecordBytes.{record_bytes};
ghost use Rattle.writer.specs.ToBox.{box_of};

use exports::answer;
use find_mini::find_mini;
use find_mini::restore::restore;
use ftyp::FileType;
use record_layout::{put_record, record_len};

// Finds the record that expands to a file, for every file and every original file type: its chunks lie in the file.
#[tactic(auto, using(exports::specs::AnswerLaws::refuses))]
#[unsafe(no_mangle)]
pub extern "C" fn bustardcase_find_mini(
    file: &[u8],
    major: u32,
    minor: u32,
    brands: &[u8],
    out: &mut [u8],
) -> u64
    ensures { let r = back_to_mini file.now major minor brands.now in Answered (find_refusal r) 0 (record_bytes (record_or_blank r)) out.old out.new result }
{
    let original = FileType {
        major_brand: major,
        minor_version: minor,
        compatible_brands: brands,
    };
    match find_mini(file, original) {
        Ok(image) => answer::hand_out(record_len(image), out, |out| put_record(out, 0, image)),
        Err(error) => answer::refused(error),
    }
}

// Writes the box of the record that expands to a file, in its shortest form, for every file and every original file type.
#[unsafe(no_mangle)]
pub extern "C" fn bustardcase_restore(
    file: &[u8],
    major: u32,
    minor: u32,
    brands: &[u8],
    out: &mut [u8],
) -> u64
    ensures { let r = back_to_mini file.now major minor brands.now in Answered (find_refusal r) 0 (box_of (record_or_blank r) file.now) out.old out.new result }
{
    let original = FileType {
        major_brand: major,
        minor_version: minor,
        compatible_brands: brands,
    };
    answer::of_written(restore(file, original, out))
}
