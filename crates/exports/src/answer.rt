// The number that an exported function returns: the refusal's number times 2^48, plus a value.
ghost use Rattle.std.specs.Prelude.{◌≡◌, ◌<◌, ◌≤◌, length};
ghost use Rattle.std.specs.Fn.{FnOnceReturnsAtMut, FnOnceTakesAtMut};
ghost use Rattle.exports.specs.Answer.{unit, packed};
ghost use Rattle.exports.specs.TooShort.{number, number_not_zero, value_in};
ghost use Rattle.refusals.specs.Outcome.{outcome};

use refusals::Refusal;

// 2^48
pub const UNIT: u64 = 1 << 48;

// A refusal's number, or 0, with a value.
pub fn packed(number: u16, value: usize) -> u64
    requires { value < unit }
    ensures { result ≡ packed number value }
{
    u64::from(number) * UNIT + value as u64
}

// A refusal's number, with its value.
pub fn refused<E: Refusal>(error: E) -> u64
    requires { E.value error < unit }
    ensures is { result ≡ packed (E.number error) (E.value error) }
    ensures not_zero { E.number error ≡ 0 → ⊥ }
{
    packed(u16::from(error.number()), error.value())
}

// The output is shorter than the bytes that it shall take.
#[derive(Clone, Copy, Debug, PartialEq, Eq)]
pub struct TooShort {
    pub needed: usize,
}

impl Refusal for TooShort {
    ghost number = { number };

    ghost value = { value_in };

    ghost not_zero = { number_not_zero };

    fn number(self) -> u8 {
        16
    }

    fn value(self) -> usize {
        self.needed
    }
}

// The length that `put` writes into an output of at least `needed` bytes; refusal 16 where the output is shorter. It does not take
// the call's `Result` too, so the calls have a `match`, here and in exports_outline: the proof of each would grow from one line to three.
pub fn hand_out<F: FnOnce(&mut [u8]) -> usize>(needed: usize, out: &mut [u8], put: F) -> u64
    requires small { needed < unit }
    requires callable { needed ≤ length out.old → FnOnceTakesAtMut F.FnOnce put out.old }
    ensures short { length out.old < needed → (result ≡ packed 16 needed) × (out.new ≡ out.old) }
    ensures written { needed ≤ length out.old → FnOnceReturnsAtMut F.FnOnce put out.old result out.new }
{
    if out.len() < needed {
        return refused(TooShort { needed });
    }
    put(out) as u64
}

// The answer of a call that looks for room in the output itself: the length that it wrote, or its refusal.
pub fn of_written<E: Refusal>(wrote: Result<usize, E>) -> u64
    requires { (outcome E.number E.value wrote).value < unit }
    ensures { let w = outcome E.number E.value wrote in result ≡ packed w.refusal w.value }
{
    match wrote {
        Ok(len) => len as u64,
        Err(error) => refused(error),
    }
}
