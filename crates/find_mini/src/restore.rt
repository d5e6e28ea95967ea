// The 'mini' box of the record that expands to a file, in its shortest form.
ghost use Rattle.std.specs.Prelude.{◌≡◌, ◌⊎◌, ◌≤◌, ◌<◌, take, drop, IfOk};
ghost use Rattle.find_mini.specs.Restored.{number, number_not_zero, value_in, outcome_of, restored};
ghost use Rattle.find_mini.specs.Restores.{Restores};
ghost use Rattle.find_mini.specs.declared.restore.RestoreError.TheVariants.{Finding, Writing};

use crate::{FindError, find_mini};
use ftyp::FileType;
use refusals::Refusal;
use writer::{WriteError, to_box};

// Why no box is written: no record is found, or the writer's refusal, which is 16 alone.
#[derive(Clone, Copy, Debug, PartialEq, Eq)]
pub enum RestoreError {
    Finding(FindError),
    Writing(WriteError),
}

impl From<WriteError> for RestoreError {
    ghost from_gives = { λ e r. r ≡ Writing e };

    fn from(error: WriteError) -> RestoreError {
        RestoreError::Writing(error)
    }
}

impl From<FindError> for RestoreError {
    ghost from_gives = { λ e r. r ≡ Finding e };

    fn from(error: FindError) -> RestoreError {
        RestoreError::Finding(error)
    }
}

impl Refusal for RestoreError {
    ghost number = { number };

    ghost value = { value_in };

    ghost not_zero = { number_not_zero };

    fn number(self) -> u8 {
        match self {
            RestoreError::Finding(error) => error.number(),
            RestoreError::Writing(error) => error.number(),
        }
    }

    fn value(self) -> usize {
        match self {
            RestoreError::Finding(error) => error.value(),
            RestoreError::Writing(error) => error.value(),
        }
    }
}

// The box, its chunks taken from the file; its length. A `match`, as in rewriter: a `?` copies the record.
#[tactic(auto, using(crate::proofs::Laws::refused_as_found))]
pub fn restore(
    file: &[u8],
    original: FileType<&[u8]>,
    out: &mut [u8],
) -> Result<usize, RestoreError>
    ensures answer { let t = original.entry in (outcome_of result, out.new) ≡ restored file.now t.major_brand t.minor_version t.compatible_brands.now out.old }
    ensures restores { let t = original.entry in IfOk result (λ len. Restores file.now t.major_brand t.minor_version t.compatible_brands.now (drop 8 (take len out.new))) }
    ensures bounds { let n = (outcome_of result).refusal in (n ≡ 0) ⊎ ((15 ≤ n) × (n ≤ 17)) }
    ensures len { (outcome_of result).value < 4294967296 }
{
    match find_mini(file, original) {
        Ok(image) => Ok(to_box(image, file, out)?),
        Err(error) => Err(error.into()),
    }
}
