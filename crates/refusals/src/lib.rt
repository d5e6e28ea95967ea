// Why a call refuses, as callers outside see it: a number, with the length that the call needs or the bit at which reading broke off (docs/ABI.md).
#![tactic(auto)]

ghost use Rattle.std.specs.Prelude.{◌≡◌, ℕ};

// What each error type of these crates gives. None has a `Display`: outside, a refusal is its number, and what prints words it.
pub trait Refusal: Copy {
    // The number of each refusal (docs/ABI.md).
    ghost number: { Self → ℕ };

    // The value that comes with it: the length needed, the bit at which reading broke off, else 0.
    ghost value: { Self → ℕ } = { λ _. 0 };

    // Both are numbers, but two facts of an error. `value` has no provided body: 0 would have to be right for every `value` that an `impl` states.
    fn number(self) -> u8
        ensures { result ≡ number self };

    fn value(self) -> usize
        ensures { result ≡ value self };

    // No refusal is 0, which stands for success.
    ghost not_zero: { (e : Self) → number e ≡ 0 → ⊥ };
}
