// The corner cases of src/boxes.rs: sizes, largesizes and extended types at their least, payloads, and boxes written.
ghost use Rattle.std.specs.Prelude.{◌≡◌, ◌≤◌, length};

use boxes::{BoxHeader, parse_box_header};
use refusals::Refusal;
use std::io;
use std::io::Write;

// Sizes, largesizes, extended types and starts: a label, a buffer, and where a header is read in it.
const HEADERS: [(&str, &[u8], usize); 16] = [
    ("size 8", b"\x00\x00\x00\x08free", 0),
    ("size 7", b"\x00\x00\x00\x07free", 0),
    ("size 0, three bytes after", b"\x00\x00\x00\x00freeabc", 0),
    ("size 9, eight bytes there", b"\x00\x00\x00\x09free", 0),
    (
        "size 1, fifteen bytes there",
        b"\x00\x00\x00\x01free\x00\x00\x00\x00\x00\x00\x00",
        0,
    ),
    (
        "largesize 16",
        b"\x00\x00\x00\x01free\x00\x00\x00\x00\x00\x00\x00\x10",
        0,
    ),
    (
        "largesize 15",
        b"\x00\x00\x00\x01free\x00\x00\x00\x00\x00\x00\x00\x0f",
        0,
    ),
    ("uuid, size 24", b"\x00\x00\x00\x18uuid0123456789abcdef", 0),
    ("uuid, size 23", b"\x00\x00\x00\x17uuid0123456789abcdef", 0),
    (
        "uuid, largesize 32",
        b"\x00\x00\x00\x01uuid\x00\x00\x00\x00\x00\x00\x00\x200123456789abcdef",
        0,
    ),
    (
        "uuid, largesize 31",
        b"\x00\x00\x00\x01uuid\x00\x00\x00\x00\x00\x00\x00\x1f0123456789abcdef",
        0,
    ),
    ("seven bytes", b"\x00\x00\x00\x07fre", 0),
    (
        "second box",
        b"\x00\x00\x00\x08free\x00\x00\x00\x09skipx",
        8,
    ),
    ("start at the end", b"\x00\x00\x00\x08free", 8),
    ("start past the end", b"\x00\x00\x00\x08free", 9),
    ("largest start", b"\x00\x00\x00\x08free", usize::MAX),
];

pub fn headers(rt: &impl Print) -> io::Result<()> {
    for (label, buf, start) in HEADERS {
        // What is printed in either case: of a refused header all but the number is 0.
        let (refusal, at, len) = match parse_box_header(buf, start) {
            Ok(header) => (0, header.payload_start, header.payload_len),
            Err(error) => (error.number(), 0, 0),
        };
        println!(rt; "{label}: refusal {refusal}, payload at {at}, bytes {len}")?;
    }
    Ok(())
}

// Payloads that lie in a buffer of four bytes, end at its end, and pass it: a label, a place, and a length.
const PAYLOADS: [(&str, usize, usize); 5] = [
    ("payload 1 + 2 of 4", 1, 2),
    ("payload 4 + 0 of 4", 4, 0),
    ("payload 1 + 4 of 4", 1, 4),
    ("payload 5 + 0 of 4", 5, 0),
    ("payload past the largest usize", usize::MAX, 2),
];

pub fn payloads(rt: &impl Print) -> io::Result<()> {
    for (label, at, len) in PAYLOADS {
        let header = BoxHeader {
            box_type: 0,
            user_type: None,
            start: 0,
            payload_start: at,
            payload_len: len,
        };
        print!(rt; "{label}: [")?;
        io::writer(rt).write_all(boxes::payload(b"abcd", header))?;
        println!(rt; "]")?;
    }
    Ok(())
}

// The body of a full box: version 1, flags, and two bytes.
fn body(out: &mut [u8]) -> usize
    requires { 6 ≤ length out.old }
    ensures { result ≡ 6 }
{
    let at = boxes::put_full_box_header(out, 0, 1, 0x626364);
    octets::put::<2>(out, at, 0x6566)
}

// A full box after one byte, its body first and then its header, and an empty box after that.
fn put_boxes(out: &mut [u8]) -> usize
    requires { 23 ≤ length out.old }
{
    let len = body(&mut out[9..]);
    let at = boxes::put_box_header(out, 1, len, u32::from_be_bytes(*b"full"));
    boxes::put_box_header(out, at, 0, u32::from_be_bytes(*b"free"))
}

// Boxes written into an output of dots.
pub fn write(rt: &impl Print) -> io::Result<()> {
    let mut out = [b'.'; 24];
    let end = put_boxes(&mut out);
    println!(rt; "boxes written up to {end}")?;
    for byte in out {
        print!(rt; "{byte:02x} ")?;
    }
    println!(rt; "")
}
