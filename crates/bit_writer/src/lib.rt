// A writer of bits, high bit first: by a rule of the project the state goes in and comes back by value, so the output is lent to each
// call, here and in header_writer. A byte past the end of the output is not stored. Once a value does not fit its field, the state says so.
#![tactic(auto)]

ghost use Rattle.std.specs.Prelude.{◌≡◌, ◌+◌, ◌-◌, ◌%◌, ◌^◌, ◌≤◌, true, [], ◌++◌, length, slice_set};
ghost use Rattle.bits.specs.Bit.{bits_n, bits_of};
ghost use Rattle.bits.specs.Format.{field, flag, field_if, flag_if, minus1_if, offset, sized, bytes, bytes_for};
ghost use Rattle.bit_writer.specs.Writer.{place, waiting, fits, Fed, Tested, Puts, all_zero};

use bits::{BitPos, Widths};

// A writer's state: the bit that comes next, the bits since the last whole byte as the low bits of a number, and whether every
// value so far fits its field.
#[derive(Clone, Copy, Debug, PartialEq, Eq)]
pub struct BitWriter {
    pub at: BitPos,
    pub bits: usize,
    pub fits: bool,
}

// A byte at its place. Past the end nothing is stored. No `get_mut`: of a slice that it lent out only the length is known.
#[tactic(auto, using(crate::specs::WriterLaws::storing))]
fn store(out: &mut [u8], at: usize, x: u8)
    ensures { out.new ≡ slice_set out.old at x }
{
    if at < out.len() {
        out[at] = x;
    }
}

// 2 ^ n, apart: over the bare shift the goal of `join` does not close. `n ≤ 32` stands in each clause, here and below: a type for widths would be
// made at each call.
#[tactic(auto, using(crate::specs::WriterLaws::powers))]
fn power(n: u32) -> usize
    requires { n ≤ 32 }
    ensures value { result ≡ 2 ^ n }
    ensures bounds { (1 ≤ result) × (result ≤ 4294967296) }
{
    1 << n
}

// The j low bits of a number, and the n low bits of another after them.
#[tactic(auto, using(crate::specs::WriterLaws::joining))]
fn join(high: usize, j: u32, n: u32, low: usize) -> usize
    requires { (j ≤ 7) × (n ≤ 32) }
    ensures { bits_n (j + n) result ≡ bits_n j high ++ bits_n n low }
{
    let top = power(j);
    let size = power(n);
    high % top * size + low % size
}

// Whether all bytes are zero.
pub fn all_zero(s: &[u8]) -> bool
    ensures { result ≡ all_zero s.now }
{
    s.iter().all(|&x| x == 0)
}

impl BitWriter {
    // At the first bit of a byte.
    #[tactic(auto, unfolding(crate::specs::Writer::waiting))]
    pub fn new(at: usize) -> Self
        ensures { (place result ≡ at) × (waiting result ≡ []) × (fits result ≡ true) }
    {
        Self {
            at: BitPos(at, 0),
            bits: 0,
            fits: true,
        }
    }

    // The state after a test. `&`, not `&&`, which to the prover is a branch.
    #[tactic(auto, unfolding(crate::specs::Writer::waiting))]
    pub fn test(self, ok: bool) -> BitWriter
        ensures { Tested self ok result }
    {
        BitWriter {
            fits: self.fits & ok,
            ..self
        }
    }

    // The n low bits of v, the high bit first.
    fn feed(self, out: &mut [u8], n: u32, v: usize) -> BitWriter
        requires { n ≤ 32 }
        ensures fed { Fed out.old self (bits_n n v) out.new result }
        ensures fits_as_before { fits result ≡ fits self }
    {
        // By `as` here and below: no `From` leads from `usize` to another number, nor from `u32` to `usize`.
        let j = self.at.bit() as u32;
        let all = join(self.bits, j, n, v);
        let mut k = self.at.0;
        let mut m = j + n;
        // m bits still wait. No `for`: what m and k are after the last whole byte is the next state.
        while 8 <= m {
            m -= 8;
            store(out, k, ((all >> m) % 256) as u8);
            k = k.wrapping_add(1);
        }
        BitWriter {
            at: BitPos(k, m as usize),
            bits: all,
            fits: self.fits,
        }
    }

    // A field of n bits.
    #[tactic(auto, using(crate::specs::WriterLaws::formats))]
    pub fn put(self, out: &mut [u8], n: u32, v: usize) -> BitWriter
        requires { n ≤ 32 }
        ensures { Puts (field n) out.old self v out.new result }
    {
        let w = self.feed(out, n, v);
        w.test(v < power(n))
    }

    // A field where the flag says so; else no bits, for 0. An `if` here and below: a call with a closure for what is written would be as long, and
    // would have to name the format.
    #[tactic(auto, using(crate::specs::WriterLaws::formats))]
    pub fn put_if(self, out: &mut [u8], on: bool, n: u32, v: usize) -> BitWriter
        requires { n ≤ 32 }
        ensures { Puts (field_if on n) out.old self v out.new result }
    {
        if on {
            self.put(out, n, v)
        } else {
            self.test(v == 0)
        }
    }

    pub fn flag(self, out: &mut [u8], b: bool) -> BitWriter
        ensures { Puts flag out.old self b out.new result }
    {
        self.put(out, 1, usize::from(b))
    }

    // A flag where another says so; else no bits, for false.
    #[tactic(auto, using(crate::specs::WriterLaws::formats))]
    pub fn flag_if(self, out: &mut [u8], on: bool, b: bool) -> BitWriter
        ensures { Puts (flag_if on) out.old self b out.new result }
    {
        if on { self.flag(out, b) } else { self.test(!b) }
    }

    // A size in its long or short form where the flag says so; else no bits, for 0. Not one with `minus1_if`: each writes a format of its own.
    pub fn size_if(
        self,
        out: &mut [u8],
        on: bool,
        large: bool,
        widths: Widths,
        v: usize,
    ) -> BitWriter
        ensures { Puts (field_if on (sized large widths.long widths.short)) out.old self v out.new result }
    {
        self.put_if(out, on, widths.of(large), v)
    }

    // A number stored less k.
    pub fn put_offset(self, out: &mut [u8], k: usize, n: u32, v: usize) -> BitWriter
        requires { n ≤ 32 }
        ensures { Puts (offset k n) out.old self v out.new result }
    {
        let w = self.put(out, n, v.saturating_sub(k));
        w.test(k <= v)
    }

    // A number stored less one, in its long or short form, where the flag says so; else no bits, for 0.
    #[tactic(auto, using(crate::specs::WriterLaws::formats))]
    pub fn minus1_if(
        self,
        out: &mut [u8],
        on: bool,
        large: bool,
        widths: Widths,
        v: usize,
    ) -> BitWriter
        ensures { Puts (minus1_if on (sized large widths.long widths.short)) out.old self v out.new result }
    {
        if on {
            self.put_offset(out, 1, widths.of(large), v)
        } else {
            self.test(v == 0)
        }
    }

    // The bytes of a slice. A loop: after a `fold` nothing is known of an output that its closure changes.
    pub fn bytes(self, out: &mut [u8], s: &[u8]) -> BitWriter
        ensures fed { Fed out.old self (bits_of s.now) out.new result }
        ensures fits_as_before { fits result ≡ fits self }
        ensures format { Puts (bytes (length s.now)) out.old self s.now out.new result }
    {
        let mut w = self;
        for &x in s {
            w = w.feed(out, 8, usize::from(x));
        }
        w
    }

    // A body of N bytes where the flag says so; else no bits, for zeros.
    pub fn body_if<const N: usize>(self, out: &mut [u8], on: bool, body: &[u8; N]) -> BitWriter
        ensures { Puts (bytes_for on N) out.old self body.now out.new result }
    {
        if on {
            self.bytes(out, body)
        } else {
            self.test(all_zero(body))
        }
    }

    // Zero bits up to a byte boundary.
    pub fn align(self, out: &mut [u8]) -> BitWriter
        ensures { Puts (field ((8 - self.at.1 % 8) % 8)) out.old self 0 out.new result }
    {
        self.put(out, self.at.to_boundary() as u32, 0)
    }
}
