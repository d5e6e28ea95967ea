// Rewriting: a payload read, and its record written as a box in its shortest form.
#![tactic(auto)]

ghost use Rattle.std.specs.Prelude.{◌≡◌, ◌⊎◌, ◌≤◌, ◌<◌, take, drop, IfOk};
ghost use Rattle.rewriter.specs.Outcome.{number, number_not_zero, value_in, outcome_of};
ghost use Rattle.rewriter.specs.Rewritten.{rewritten, WrittenBack};
ghost use Rattle.rewriter.specs.declared.RewriteError.TheVariants.{Reading, Writing};

use bits::ReadError;
use reader::parse;
use refusals::Refusal;
use writer::{WriteError, to_box};

// Why a payload is not rewritten: the reader's refusal, or the writer's.
#[derive(Clone, Copy, Debug, PartialEq, Eq)]
pub enum RewriteError {
    Reading(ReadError),
    Writing(WriteError),
}

impl From<ReadError> for RewriteError {
    ghost from_gives = { λ e r. r ≡ Reading e };

    fn from(error: ReadError) -> RewriteError {
        RewriteError::Reading(error)
    }
}

impl From<WriteError> for RewriteError {
    ghost from_gives = { λ e r. r ≡ Writing e };

    fn from(error: WriteError) -> RewriteError {
        RewriteError::Writing(error)
    }
}

impl Refusal for RewriteError {
    ghost number = { number };

    ghost value = { value_in };

    ghost not_zero = { number_not_zero };

    fn number(self) -> u8 {
        match self {
            RewriteError::Reading(error) => error.number(),
            RewriteError::Writing(error) => error.number(),
        }
    }

    fn value(self) -> usize {
        match self {
            RewriteError::Reading(error) => error.value(),
            RewriteError::Writing(error) => error.value(),
        }
    }
}

// The record of a payload as a box; its length. A `match`: a `?` copies the record, and the smallest payload takes a fifteenth longer.
pub fn rewrite(payload: &[u8], out: &mut [u8]) -> Result<usize, RewriteError>
    ensures answer { (outcome_of result, out.new) ≡ rewritten payload.now out.old }
    ensures written_back { IfOk result (λ len. WrittenBack payload.now (drop 8 (take len out.new))) }
    ensures bounds { ((outcome_of result).refusal ≤ 16) × ((outcome_of result).value < 281474976710656) }
    ensures len { let w = outcome_of result in (w.refusal ≡ 0) ⊎ (w.refusal ≡ 16) → w.value < 4294967296 }
{
    match parse(payload) {
        Ok(image) => Ok(to_box(image, payload, out)?),
        Err(error) => Err(error.into()),
    }
}
