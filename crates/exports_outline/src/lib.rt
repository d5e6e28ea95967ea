// The C functions that tell where the parts of a payload lie, and where its reading broke off. They are a library of their own: they call the
// functions of header_reader one by one, and in one library with `exports` the compiler would no longer merge them into `parse`
// (docs/DECISIONS.md, 19).
#![tactic(auto)]

ghost use Rattle.exports.specs.Answer.{Answered};
ghost use Rattle.mini.specs.Read.{read_mini};
ghost use Rattle.outline.specs.Diagnosis.{diagnosis_bytes};
ghost use Rattle.outline.specs.OutlineBytes.{outline_bytes};

use exports::answer;
use outline::diagnosis::{DIAGNOSIS_LEN, put_diagnosis};
use outline::{OUTLINE_LEN, put_outline};
use reader::parse;

// Tells where the parts of a payload lie, for every payload.
#[tactic(auto, using(exports::specs::AnswerLaws::refuses, exports::specs::AnswerLaws::bit_fits))]
#[unsafe(no_mangle)]
pub extern "C" fn bustardcase_outline(payload: &[u8], out: &mut [u8]) -> u64
    ensures { Answered (read_mini payload.now).refusal (read_mini payload.now).bit (outline_bytes payload.now) out.old out.new result }
{
    match parse(payload) {
        Ok(image) => answer::hand_out(OUTLINE_LEN, out, |out| put_outline(out, 0, payload, image)),
        Err(error) => answer::refused(error),
    }
}

// Tells where reading a payload broke off, for every payload: a refusal of reading is part of the answer.
#[unsafe(no_mangle)]
pub extern "C" fn bustardcase_diagnose(payload: &[u8], out: &mut [u8]) -> u64
    ensures { Answered 0 0 (diagnosis_bytes payload.now) out.old out.new result }
{
    answer::hand_out(DIAGNOSIS_LEN, out, |out| put_diagnosis(out, 0, payload))
}
