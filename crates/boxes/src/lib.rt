// Boxes of the ISO base media file format (ISO/IEC 14496-12, 4.2): headers read and written. Nothing here knows of pictures.
#![tactic(auto)]

pub mod find;

ghost use Rattle.std.specs.Prelude.{◌≡◌, ◌+◌, ◌≤◌, ◌<◌, length};
ghost use Rattle.octets.specs.BigEndian.{be, num};
ghost use Rattle.octets.specs.Overwrite.{Wrote};
ghost use Rattle.octets.specs.Part.{Part};
ghost use Rattle.octets.specs.OverwriteLaws.{lent, returned};
ghost use Rattle.std.specs.Fn.{FnOnceReturnsAtMut, FnOnceTakesAtMut};
ghost use Rattle.boxes.specs.Header.{header_at, typed_at, number, number_not_zero, user_type_at};
ghost use Rattle.boxes.specs.Size.{size_at, large_size_at, bounded, InBuffer};
ghost use Rattle.boxes.specs.Boxed.{HeaderPut, full_box_header};

use octets::{Span, get, part, put, put_u8};
use refusals::Refusal;

// A four-character code, its first character the highest byte. An alias: codes come from C and stand in records as numbers. Constants of it are
// numbers in all crates: a constant's value takes no call, so none of `u32::from_be_bytes(*b"mini")`.
pub type FourCc = u32;

pub const UUID: FourCc = 0x75756964;

// The length of a header that is a size and a type.
pub const BOX_HEADER_LEN: usize = 8;

pub fn get_four_cc(s: &[u8], at: usize) -> FourCc
    requires { at + 4 ≤ length s.now }
    ensures { result ≡ num 4 s.now at }
{
    // A cast, here and in the crates above: Rust has no `From` to a smaller number, nor between `usize` and numbers of 32 or 64 bits.
    get::<4>(s, at) as u32
}

pub fn put_four_cc(out: &mut [u8], at: usize, code: FourCc) -> usize
    requires { at + 4 ≤ length out.old }
    ensures { Wrote out.old at 4 (be 4 code) out.new result }
{
    put::<4>(out, at, u64::from(code))
}

// The extended type of a 'uuid' box: its sixteen bytes as two numbers, the first eight the high one. In definitions an array is a list of any
// length, and of two numbers the layout is 45 bytes without a condition (layout/specs/HeaderBytes).
#[derive(Clone, Copy, Debug, PartialEq, Eq)]
pub struct UserType {
    pub high: u64,
    pub low: u64,
}

// A box's header, and where its payload lies in the buffer: two numbers, since `payload_start` and `payload_len` are the names of boxes.rs.
#[derive(Clone, Copy, Debug, PartialEq, Eq)]
pub struct BoxHeader {
    pub box_type: FourCc,
    pub user_type: Option<UserType>,
    pub start: usize,
    pub payload_start: usize,
    pub payload_len: usize,
}

// Why a header is refused. Each case's value is the number of its refusal.
#[derive(Clone, Copy, Debug, PartialEq, Eq)]
pub enum HeaderError {
    // Fewer than eight bytes are there.
    TruncatedHeader = 1,
    // Size 1, and fewer than sixteen bytes are there.
    TruncatedLargesize = 2,
    // The box is shorter than its own header, or ends past the bytes that remain.
    SizeOutOfRange = 3,
    // A 'uuid' box ends before its extended type does.
    TruncatedUserType = 4,
}

impl Refusal for HeaderError {
    ghost number = { number };

    ghost not_zero = { number_not_zero };

    fn number(self) -> u8 {
        self as u8
    }

    fn value(self) -> usize {
        0
    }
}

// A box's whole length, and how many of its bytes size, type and largesize take.
#[derive(Clone, Copy, Debug, PartialEq, Eq)]
pub struct BoxSize {
    pub total: usize,
    pub head: usize,
}

// A box holds its own header and ends within the bytes that remain.
#[tactic(auto, unfolding(crate::specs::Size::bounded))]
fn bounded(head: usize, total: usize, rest: usize) -> Result<BoxSize, HeaderError>
    ensures { result ≡ bounded head total rest }
{
    if (head..=rest).contains(&total) {
        Ok(BoxSize { total, head })
    } else {
        Err(HeaderError::SizeOutOfRange)
    }
}

// The size of a box with a largesize.
#[tactic(auto, unfolding(crate::specs::Size::large_size_at))]
fn large_size(buf: &[u8], start: usize) -> Result<BoxSize, HeaderError>
    requires { start + 8 ≤ length buf.now }
    ensures { result ≡ large_size_at buf.now start }
{
    let rest = buf.len() - start;
    if rest < 16 {
        return Err(HeaderError::TruncatedLargesize);
    }
    bounded(16, get::<8>(buf, start + 8) as usize, rest)
}

// The size of the box at `start`.
#[tactic(auto, unfolding(crate::specs::Size::size_at))]
fn box_size(buf: &[u8], start: usize) -> Result<BoxSize, HeaderError>
    requires { start + 8 ≤ length buf.now }
    ensures { result ≡ size_at buf.now start }
{
    let rest = buf.len() - start;
    match get::<4>(buf, start) {
        0 => Ok(BoxSize {
            total: rest,
            head: BOX_HEADER_LEN,
        }),
        1 => large_size(buf, start),
        size => bounded(BOX_HEADER_LEN, size as usize, rest),
    }
}

#[tactic(auto, unfolding(crate::specs::Header::user_type_at))]
fn get_user_type(buf: &[u8], at: usize) -> UserType
    requires { at + 16 ≤ length buf.now }
    ensures { result ≡ user_type_at buf.now at }
{
    UserType {
        high: get::<8>(buf, at),
        low: get::<8>(buf, at + 8),
    }
}

// The header of a box whose size is known.
#[tactic(auto, unfolding(crate::specs::Header::typed_at))]
fn typed_header(buf: &[u8], start: usize, size: BoxSize) -> Result<BoxHeader, HeaderError>
    requires { InBuffer buf.now start size.total size.head }
    ensures { result ≡ typed_at buf.now start size.total size.head }
{
    let box_type = get_four_cc(buf, start + 4);
    let (user_type, head) = if box_type != UUID {
        (None, size.head)
    } else if size.total - size.head < 16 {
        return Err(HeaderError::TruncatedUserType);
    } else {
        (Some(get_user_type(buf, start + size.head)), size.head + 16)
    };
    Ok(BoxHeader {
        box_type,
        user_type,
        start,
        payload_start: start + head,
        payload_len: size.total - head,
    })
}

// The header of the box at `start`, for every buffer and every start.
#[tactic(auto, using(crate::specs::WalkEnds::in_buffer), unfolding(crate::specs::Header::header_at))]
pub fn parse_box_header(buf: &[u8], start: usize) -> Result<BoxHeader, HeaderError>
    ensures { result ≡ header_at buf.now start }
{
    if buf.len() < BOX_HEADER_LEN || buf.len() - BOX_HEADER_LEN < start {
        return Err(HeaderError::TruncatedHeader);
    }
    let size = box_size(buf, start)?;
    typed_header(buf, start, size)
}

// The payload that a header spans, as a part of `buf`; the empty part at its start where the header passes `buf`.
pub fn payload(buf: &[u8], h: BoxHeader) -> &[u8]
    ensures { Part buf.entry h.payload_start h.payload_len result }
{
    part(
        buf,
        Span {
            at: h.payload_start,
            len: h.payload_len,
        },
    )
}

// Fills in the header of a box whose body of `len` bytes stands at `at + BOX_HEADER_LEN`, and returns the position after the body.
#[tactic(auto, using(octets::specs::OverwriteLaws::writes), unfolding(crate::specs::Boxed::box_header))]
pub fn put_box_header(out: &mut [u8], at: usize, len: usize, box_type: FourCc) -> usize
    requires { (at + 8 + len ≤ length out.old) × (8 + len < 4294967296) }
    ensures { HeaderPut out.old at len box_type out.new result }
{
    let size = BOX_HEADER_LEN + len;
    let after = put::<4>(out, at, size as u64);
    put_four_cc(out, after, box_type);
    at + size
}

// A box: `body` writes its body into the part that follows the header and returns the body's length, by which the header is then filled in.
pub fn put_boxed<F: FnOnce(&mut [u8]) -> usize>(
    out: &mut [u8],
    at: usize,
    box_type: FourCc,
    body: F,
) -> usize
    requires room { at + 8 ≤ length out.old }
    requires callable { FnOnceTakesAtMut F.FnOnce body (lent out.old (at + 8)) }
    requires fits { (n : _) (p : _) → FnOnceReturnsAtMut F.FnOnce body (lent out.old (at + 8)) n p → (at + 8 + n ≤ length out.old) × (8 + n < 4294967296) }
    ensures { (n : _) × (p : _) × FnOnceReturnsAtMut F.FnOnce body (lent out.old (at + 8)) n p × HeaderPut (returned out.old (at + 8) p) at n box_type out.new result }
{
    let n = body(&mut out[at + BOX_HEADER_LEN..]);
    put_box_header(out, at, n, box_type)
}

// Version and flags, with which the body of a full box begins.
#[tactic(auto, using(octets::specs::OverwriteLaws::writes), unfolding(crate::specs::Boxed::full_box_header))]
pub fn put_full_box_header(out: &mut [u8], at: usize, version: u8, flags: u32) -> usize
    requires { at + 4 ≤ length out.old }
    ensures { Wrote out.old at 4 (full_box_header version flags) out.new result }
{
    let after = put_u8(out, at, version);
    put::<3>(out, after, u64::from(flags))
}
