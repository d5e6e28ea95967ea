// A reader of bits, high bit first: by a rule of the project the state goes in and comes back by value, so the payload is lent to each
// call, here and in header_reader. Once a read is refused, every later read gives 0 and the same state.
#![tactic(auto)]

ghost use Rattle.std.specs.Prelude.{◌≡◌, ◌+◌, ◌-◌, ◌*◌, ◌/◌, ◌%◌, ◌^◌, ◌≤◌, ◌<◌, true, T, MatchResult, eqb, leb, get_or, length, replicate};
ghost use Rattle.bits.specs.State.{is_reading_state, clean, ahead, part, read_bytes, test};
ghost use Rattle.bits.specs.ReadError.{kind_number, number, number_not_zero, value_in};
ghost use Rattle.bits.specs.Format.{field, flag, bytes, field_if, flag_if, minus1_if, sized, bytes_for, padded37};
ghost use Rattle.bits.specs.Run.{bit_index, state, Run};
ghost use Rattle.bits.specs.Window.{window_at};

use refusals::Refusal;

// A place counted in bits, by a rule of the project a tuple: the whole bytes passed, and the bits of the next one. So every place within a slice
// is a BitPos. Callers may give any two numbers, so the second may be eight or more.
#[derive(Clone, Copy, Debug, PartialEq, Eq)]
pub struct BitPos(pub usize, pub usize);

impl BitPos {
    // The byte that it lies in.
    pub fn byte(self) -> usize
        requires { self.0 + self.1 / 8 ≤ 18446744073709551615 }
        ensures { result ≡ self.0 + self.1 / 8 }
    {
        self.0 + self.1 / 8
    }

    // The bits of that byte before it.
    pub fn bit(self) -> usize
        ensures { result ≡ self.1 % 8 }
    {
        self.1 % 8
    }

    // Its number among all bits.
    pub fn index(self) -> usize
        requires { bit_index self ≤ 18446744073709551615 }
        ensures { result ≡ bit_index self }
    {
        self.0 * 8 + self.1
    }

    // The bits up to the next byte boundary.
    pub fn to_boundary(self) -> usize
        ensures { result ≡ (8 - self.1 % 8) % 8 }
    {
        (8 - self.bit()) % 8
    }
}

// Why a payload is refused, by its number in docs/ABI.md.
#[derive(Clone, Copy, Debug, PartialEq, Eq)]
pub enum ReadErrorKind {
    // A header field, or a body among the HDR boxes, needs bits past the end.
    Truncated = 5,
    // The version is not 0.
    Version = 6,
    // The two-bit float depth code is 3.
    FloatDepth = 7,
    // The bits up to the byte boundary after the header aren't all zero.
    TrailingBits = 8,
    // A chunk, taken in stored order, ends past the payload.
    ChunkPastEnd = 9,
}

// Why a payload is refused, and the bit at which the field began that was being read; under TrailingBits the first of these bits, under
// ChunkPastEnd the chunk's first.
#[derive(Clone, Copy, Debug, PartialEq, Eq)]
pub struct ReadError {
    pub kind: ReadErrorKind,
    pub bit: usize,
}

impl Refusal for ReadError {
    ghost number = { number };

    ghost value = { value_in };

    ghost not_zero = { number_not_zero };

    fn number(self) -> u8 {
        self.kind as u8
    }

    fn value(self) -> usize {
        self.bit
    }
}

// A reader's state: the bit that comes next, or, once a field is refused, the bit at which it began; and the number of the refusal met so far
// (0: none). Each number has 64 bits. With an Option of an enum as the refusal a header-heavy payload takes 7 parts in 100 longer to read; with a
// Result at each read, the smallest takes 2.5 times as long.
// The payload is no field: each read would have to promise that it leaves the same payload, and each sequence of reads to use that.
#[derive(Clone, Copy, Debug, PartialEq, Eq)]
pub struct Bits {
    pub at: BitPos,
    pub refusal: usize,
}

// Whether n bits from a place lie within the data.
fn room(data: &[u8], at: BitPos, n: usize) -> bool
    requires { n ≤ 512 }
    ensures { result ≡ leb (bit_index at + n) (8 * length «data».now) }
{
    at.0 <= data.len() && at.byte() + (at.bit() + n).div_ceil(8) <= data.len()
}

// The byte at i, or 0 past the end.
fn byte_at(data: &[u8], i: usize) -> u8
    ensures { result ≡ get_or «data».now i 0 }
{
    data.get(i).copied().unwrap_or(0)
}

// The five bytes from byte i, as one number. A sum in place of `from_be_bytes`, with which a header-heavy payload takes a tenth longer to read: its
// bytes pass through memory.
fn window(data: &[u8], i: usize) -> u64
    requires { i ≤ length «data».now }
    ensures { (result ≡ window_at «data».now i) × (result < 1099511627776) }
{
    u64::from(byte_at(data, i)) * 4294967296
        + u64::from(byte_at(data, i + 1)) * 16777216
        + u64::from(byte_at(data, i + 2)) * 65536
        + u64::from(byte_at(data, i + 3)) * 256
        + u64::from(byte_at(data, i + 4))
}

// The number that n bits from a place write. `as` here and below: no `From` goes to a narrower number, nor from `u32` to `usize`.
fn field(data: &[u8], at: BitPos, n: u32) -> u32
    requires width { n ≤ 32 }
    requires room { bit_index at + n ≤ 8 * length «data».now }
    ensures { result ≡ part «data».now (bit_index at) n }
{
    let w = window(data, at.byte());
    let a = at.bit() as u32;
    let high = w >> (40 - a - n);
    let size: u64 = 1 << n;
    (high % size) as u32
}

// Whether the bit at a place is 1. By itself, as `flag` is beside `read`: as a field of one bit it makes the smallest payload an eighth longer
// to read.
fn bit_at(data: &[u8], at: BitPos) -> bool
    requires { bit_index at + 1 ≤ 8 * length «data».now }
    ensures { result ≡ eqb (part «data».now (bit_index at) 1) 1 }
{
    let high = data[at.byte()] >> (7 - at.bit());
    high % 2 == 1
}

// The widths of a field in its long form and in its short one.
#[derive(Clone, Copy, Debug, PartialEq, Eq)]
pub struct Widths {
    pub long: u32,
    pub short: u32,
    ghost long_bound: { long ≤ 28 },
    ghost short_bound: { short ≤ 28 },
}

impl Widths {
    // The width of the form that a flag tells.
    pub fn of(self, large: bool) -> u32
        ensures { (result ≡ sized large self.long self.short) × (result ≤ 28) }
    {
        if large { self.long } else { self.short }
    }
}

impl Bits {
    #[tactic(auto, unfolding(crate::specs::Run::state))]
    pub fn new() -> Self
        ensures { state result ≡ clean 0 }
    {
        Self {
            at: BitPos(0, 0),
            refusal: 0,
        }
    }

    // Whether n bits more are there, and the state past them. A pair, no Option: callers go on from the state in both cases.
    #[tactic(auto, using(crate::specs::Run::ahead_stuck, crate::specs::Run::ahead_there, crate::specs::Run::ahead_short), unfolding(crate::specs::Run::state))]
    fn ahead(self, data: &[u8], n: usize) -> (bool, Bits)
        requires { n ≤ 512 }
        ensures ahead { ahead «data».now (state self) n ≡ (result.0, state result.1) }
        ensures room { result.0 ≡ true → bit_index self.at + n ≤ 8 * length «data».now }
    {
        if self.refusal == 0 && room(data, self.at, n) {
            let end = self.at.bit() + n;
            let at = BitPos(self.at.byte() + end / 8, end % 8);
            (true, Bits { at, ..self })
        } else {
            (false, self.test(self.at, false, ReadErrorKind::Truncated))
        }
    }

    // A field of n bits.
    pub fn read(self, data: &[u8], n: u32) -> (u32, Bits)
        requires { n ≤ 32 }
        ensures run { Run (field n) «data».now (state self) result.0 (state result.1) }
        ensures value_bound { result.0 < 2 ^ n }
    {
        let (here, next) = self.ahead(data, n as usize);
        if here {
            (field(data, self.at, n), next)
        } else {
            (0, next)
        }
    }

    pub fn flag(self, data: &[u8]) -> (bool, Bits)
        ensures { Run flag «data».now (state self) result.0 (state result.1) }
    {
        let (here, next) = self.ahead(data, 1);
        if here {
            (bit_at(data, self.at), next)
        } else {
            (false, next)
        }
    }

    // A flag that stands only where another says so; else false. An `if`, here and below: each reads a format of its own, which a call with a
    // closure would have to name.
    pub fn flag_if(self, data: &[u8], on: bool) -> (bool, Bits)
        ensures { Run (flag_if on) «data».now (state self) result.0 (state result.1) }
    {
        if on { self.flag(data) } else { (false, self) }
    }

    // A field of at most eight bits.
    pub fn byte(self, data: &[u8], n: u32) -> (u8, Bits)
        requires { n ≤ 8 }
        ensures run { Run (field n) «data».now (state self) result.0 (state result.1) }
        ensures value_bound { result.0 < 2 ^ n }
    {
        let (value, next) = self.read(data, n);
        (value as u8, next)
    }

    pub fn byte_if(self, data: &[u8], on: bool, n: u32) -> (u8, Bits)
        requires { n ≤ 8 }
        ensures run { Run (field_if on n) «data».now (state self) result.0 (state result.1) }
        ensures value_bound { result.0 < 2 ^ n }
    {
        if on { self.byte(data, n) } else { (0, self) }
    }

    // A size of a long or a short form, where it stands at all; else 0. It and `minus1_if` differ by the one that is added: they read
    // two formats, and each contract names its own.
    #[tactic(auto, using(crate::specs::Window::pow_28))]
    pub fn size_if(self, data: &[u8], on: bool, large: bool, widths: Widths) -> (usize, Bits)
        ensures run { Run (field_if on (sized large widths.long widths.short)) «data».now (state self) result.0 (state result.1) }
        ensures value_bound { result.0 ≤ 268435456 }
    {
        if on {
            let (value, next) = self.read(data, widths.of(large));
            (value as usize, next)
        } else {
            (0, self)
        }
    }

    // A number stored less one in a field of a long or a short form, where it stands at all; else 0.
    #[tactic(auto, using(crate::specs::Window::pow_28))]
    pub fn minus1_if(self, data: &[u8], on: bool, large: bool, widths: Widths) -> (usize, Bits)
        ensures run { Run (minus1_if on (sized large widths.long widths.short)) «data».now (state self) result.0 (state result.1) }
        ensures value_bound { result.0 ≤ 268435456 }
    {
        if on {
            let (value, next) = self.read(data, widths.of(large));
            (value as usize + 1, next)
        } else {
            (0, self)
        }
    }

    // The state after a test on what was read from a place on: back at that place with the refusal, where the test fails and none was met before.
    // Of any number, so that callers may have refusals of their own.
    #[tactic(auto, using(crate::specs::Run::test_passes, crate::specs::Run::test_refuses, crate::specs::Run::test_stuck), unfolding(crate::specs::Run::state))]
    pub fn test_number(self, from: BitPos, ok: bool, refusal: usize) -> Bits
        ensures { state result ≡ test (bit_index from) (state self) ok refusal }
    {
        if ok || self.refusal != 0 {
            self
        } else {
            Bits { at: from, refusal }
        }
    }

    // The same, of a refusal of reading.
    pub fn test(self, from: BitPos, ok: bool, kind: ReadErrorKind) -> Bits
        ensures { state result ≡ test (bit_index from) (state self) ok (kind_number kind) }
    {
        self.test_number(from, ok, kind as usize)
    }

    // Fills out with bytes as one field: it keeps its zeros where they are not there.
    fn fill(self, data: &[u8], out: &mut [u8]) -> Bits
        requires size_bound { length out.old ≤ 64 }
        requires zeros { out.old ≡ replicate (length out.old) 0 }
        ensures { Run (bytes (length out.old)) «data».now (state self) out.new (state result) }
    {
        let (here, next) = self.ahead(data, 8 * out.len());
        if !here {
            return next;
        }
        let BitPos(byte, bit) = self.at;
        for (i, b) in out.iter_mut().enumerate() {
            *b = field(data, BitPos(byte + i, bit), 8) as u8;
        }
        next
    }

    // N bytes as one field, where the flag says so; else zeros. An array of fixed size, here and in `body37_after`: there is no heap.
    pub fn body_if<const N: usize>(self, data: &[u8], on: bool) -> ([u8; N], Bits)
        requires { N ≤ 64 }
        ensures { Run (bytes_for on N) «data».now (state self) result.0 (state result.1) }
    {
        let mut body = [0; N];
        if on {
            let next = self.fill(data, &mut body);
            (body, next)
        } else {
            (body, self)
        }
    }

    // A byte in front of k bytes as one field, and zeros up to 37.
    pub fn body37_after(self, data: &[u8], first: u8, k: usize) -> ([u8; 37], Bits)
        requires { k ≤ 36 }
        ensures value { result.0 ≡ padded37 (first, (read_bytes «data».now (state self) k).0) }
        ensures next { state result.1 ≡ (read_bytes «data».now (state self) k).1 }
    {
        let mut body = [0; 37];
        body[0] = first;
        let next = self.fill(data, &mut body[1..=k]);
        (body, next)
    }

    // The place, or the refusal met there. A `match` and no `TryFrom`: 0 is no refusal, so its `Result` would stand inside another.
    #[tactic(auto, using(std::proofs::lemmas::Bool::Decides::nat_tests), unfolding(crate::specs::Run::state))]
    pub fn place(self) -> Result<BitPos, ReadError>
        requires refusal { T (is_reading_state (state self)) }
        requires bit { bit_index self.at ≤ 18446744073709551615 }
        ensures { MatchResult result (λ at. (self.refusal ≡ 0) × (at ≡ self.at)) (λ e. (self.refusal ≡ number e) × (e.bit ≡ bit_index self.at)) }
    {
        let kind = match self.refusal {
            0 => return Ok(self.at),
            5 => ReadErrorKind::Truncated,
            6 => ReadErrorKind::Version,
            7 => ReadErrorKind::FloatDepth,
            8 => ReadErrorKind::TrailingBits,
            _ => ReadErrorKind::ChunkPastEnd,
        };
        Err(ReadError {
            kind,
            bit: self.at.index(),
        })
    }
}
