// Bytes read from a slice and written into an output that the caller lends. Numbers are big-endian. A writing function takes the output and a place,
// and gives back the place after, here and in the crates above: a box's body is written before its header, so a caller goes on from two places.
#![tactic(auto)]

ghost use Rattle.std.specs.Prelude.{◌≡◌, [], ◌∷◌, ◌+◌, ◌^◌, ◌≤◌, ◌<◌, length, replicate};
ghost use Rattle.octets.specs.BigEndian.{be, num};
ghost use Rattle.octets.specs.Overwrite.{Wrote};
ghost use Rattle.octets.specs.Part.{within, Part};

// Where a part of a slice lies, and its length.
#[derive(Clone, Copy, Debug, Default, PartialEq, Eq)]
pub struct Span {
    pub at: usize,
    pub len: usize,
}

// One byte, promised as itself and not as the low byte of a number.
#[tactic(auto, unfolding(crate::specs::Overwrite::overwrite))]
pub fn put_u8(out: &mut [u8], at: usize, x: u8) -> usize
    requires { at + 1 ≤ length out.old }
    ensures { Wrote out.old at 1 (x ∷ []) out.new result }
{
    out[at] = x;
    at + 1
}

// The low N bytes of a number.
#[tactic(auto, using(crate::proofs::Copied::copied, crate::proofs::Numbers::putting))]
pub fn put<const N: usize>(out: &mut [u8], at: usize, x: u64) -> usize
    requires width { N ≤ 8 }
    requires room { at + N ≤ length out.old }
    ensures { Wrote out.old at N (be N x) out.new result }
{
    let end = at + N;
    out[at..end].copy_from_slice(&x.to_be_bytes()[8 - N..]);
    end
}

// All of `src`. A loop: `copy_from_slice` calls `memmove`, which the libraries for C do not ask for.
pub fn copy_in(out: &mut [u8], at: usize, src: &[u8]) -> usize
    requires { at + length src.now ≤ length out.old }
    ensures { Wrote out.old at (length src.now) src.now out.new result }
{
    for (j, &byte) in src.iter().enumerate() {
        out[at + j] = byte;
    }
    at + src.len()
}

// One byte, as often as asked for.
#[tactic(auto, using(crate::proofs::Copied::copied))]
pub fn put_repeated(out: &mut [u8], at: usize, n: usize, x: u8) -> usize
    requires { at + n ≤ length out.old }
    ensures { Wrote out.old at n (replicate n x) out.new result }
{
    let end = at + n;
    out[at..end].fill(x);
    end
}

// As the layouts have it for what is absent.
pub fn put_zeros(out: &mut [u8], at: usize, n: usize) -> usize
    requires { at + n ≤ length out.old }
    ensures { Wrote out.old at n (replicate n 0) out.new result }
{
    put_repeated(out, at, n, 0)
}

// The number that N bytes stand for. They are put behind zeros, since `from_be_bytes` takes eight.
#[tactic(auto, using(crate::proofs::Numbers::getting))]
pub fn get<const N: usize>(s: &[u8], at: usize) -> u64
    requires width { N ≤ 8 }
    requires room { at + N ≤ length s.now }
    ensures value { result ≡ num N s.now at }
    ensures bound { result < 256 ^ N }
{
    let mut bytes = [0; 8];
    bytes[8 - N..].copy_from_slice(&s[at..at + N]);
    u64::from_be_bytes(bytes)
}

impl Span {
    // Whether the part ends within n bytes.
    pub fn is_within(self, n: usize) -> bool
        ensures { result ≡ within self.at self.len n }
    {
        self.at <= n && self.len <= n - self.at
    }

    // The part of len bytes that begins where this one ends.
    pub fn next(self, len: usize) -> Span
        requires { self.at + self.len < 2 ^ 64 }
        ensures { result ≡ record { at = self.at + self.len; len = len } }
    {
        Span {
            at: self.at + self.len,
            len,
        }
    }
}

// The bytes of the part, where they lie; the empty part at the start where it passes the end.
#[tactic(auto, unfolding(crate::specs::Part::part_of, crate::specs::Part::part_at))]
pub fn part(s: &[u8], span: Span) -> &[u8]
    ensures { Part s.entry span.at span.len result }
{
    if !span.is_within(s.len()) {
        return &s[..0];
    }
    &s[span.at..span.at + span.len]
}
