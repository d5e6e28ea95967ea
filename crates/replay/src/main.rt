// Replays recorded answers of the supplied Rust: each line of a table is one call, and what it answered. By `as`: no `From` leads from u64 to usize
// or back. A table may be any bytes: a field is read as far as it is one, and a line that has too few of them goes on in the next.
#![tactic(auto)]

ghost use Rattle.std.specs.Prelude.{◌≤◌, ◌<◌, length, IfOk, IfSome};

use std::fs::File;
use std::io::Read;
use std::{fs, io};

// What an output holds before the call.
const FILLER: u8 = 0xa5;

// An answer is a refusal's number times this, plus a value: written out here, since the tables hold what callers see.
const UNIT: u64 = 1 << 48;

// At most so many bytes of a table are read. Nothing is allocated, so a replay cannot run out of memory.
const TABLE_LEN: usize = 262_144;

// Whether a block has a byte, without a branch for each of its own: so the compiler looks at many at once.
fn has(block: &[u8], byte: u8) -> bool {
    block.iter().fold(false, |found, &b| found | (b == byte))
}

// What comes after the first `end`; nothing where there is none. A line without a space is looked through to the table's end, so blocks that have
// none are passed over whole: a table of empty lines takes a twentieth of the time.
fn after(text: &[u8], end: u8) -> &[u8]
    ensures { 0 < length text.now → length result.now < length text.now }
{
    let passed = text
        .chunks_exact(64)
        .take_while(|block| !has(block, end))
        .count();
    let rest = &text[64 * passed..];
    match rest.iter().position(|&b| b == end) {
        Some(at) => &rest[at + 1..],
        None => &rest[..0],
    }
}

// The value of the hexadecimal digit at a place.
fn digit(field: &[u8], at: usize) -> Option<u8>
    ensures { IfSome result (λ x. x < 16) }
{
    match *field.get(at)? {
        b @ b'0'..=b'9' => Some(b - b'0'),
        b @ b'a'..=b'f' => Some(b - b'a' + 10),
        _ => None,
    }
}

// The bytes of a field, pairs of hexadecimal digits, as far as these and the room go.
fn bytes<'a>(field: &[u8], room: &'a mut [u8]) -> &'a [u8] {
    for len in 0..room.len() {
        let (Some(high), Some(low)) = (digit(field, 2 * len), digit(field, 2 * len + 1)) else {
            return &room[..len];
        };
        room[len] = high * 16 + low;
    }
    room
}

// The number of a field, below 2^64.
fn number(field: &[u8]) -> u64 {
    let mut value: u64 = 0;
    for b in field {
        if !b.is_ascii_digit() || value > u64::MAX / 10 {
            break;
        }
        value = (value * 10).wrapping_add(u64::from(b - b'0'));
    }
    value
}

// Whether a call with an output full of filler answers a refusal's number with its bit, and writes nothing, none being wanted; or, where the number is 0,
// the length of the bytes that are wanted, whatever the bit, and writes these, the filler after them.
fn agrees<F: FnOnce(&mut [u8]) -> u64>(
    refusal: u64,
    bit: u64,
    want: &[u8],
    out: &mut [u8],
    call: F,
) -> bool
    requires { F.IsAlwaysCallable call }
{
    let answer = call(out);
    let value = if refusal == 0 { want.len() as u64 } else { bit };
    answer / UNIT == refusal
        && answer % UNIT == value
        && (refusal == 0 || want.is_empty())
        && out.starts_with(want)
        && out[want.len()..].iter().all(|&b| b == FILLER)
}

// One line: a buffer, a start, the number of a refusal, and the header's bytes.
fn box_header_agrees(line: &[u8]) -> bool {
    let start = after(line, b' ');
    let refusal = after(start, b' ');
    let header = after(refusal, b' ');
    let mut room = [0; 256];
    let buf = bytes(line, &mut room);
    agrees(
        number(refusal) % 256,
        0,
        bytes(header, &mut [0; 64]),
        &mut [FILLER; 64],
        |out| exports::bustardcase_box_header(buf, number(start) as usize, out),
    )
}

// One line: a payload, the number of a refusal and its bit, and the record's bytes.
fn reading_agrees(line: &[u8]) -> bool {
    let refusal = after(line, b' ');
    let bit = after(refusal, b' ');
    let record = after(bit, b' ');
    let mut room = [0; 256];
    let payload = bytes(line, &mut room);
    agrees(
        number(refusal) % 256,
        number(bit),
        bytes(record, &mut [0; 512]),
        &mut [FILLER; 512],
        |out| exports::bustardcase_read(payload, out),
    )
}

struct Tally {
    lines: u64,
    differ: u64,
}

// Replays each line of a table but the comments, which begin with '#'. Each is handed on with all that follows it.
fn replay<F: Fn(&[u8]) -> bool>(table: &[u8], line_agrees: F) -> Tally
    requires { F.IsAlwaysCallable line_agrees }
{
    let mut tally = Tally {
        lines: 0,
        differ: 0,
    };
    let mut rest = table;
    while let Some(&first) = rest.first() {
        if first != b'#' {
            tally.lines = tally.lines.wrapping_add(1);
            if !line_agrees(rest) {
                tally.differ = tally.differ.wrapping_add(1);
            }
        }
        rest = after(rest, b'\n');
    }
    tally
}

// Reads into `buf` until it is full or the file has no more, and says how many bytes there are. A `while`, since a read may give fewer than are asked
// for; `read_to_end` would take memory.
fn read_full(file: &mut File, buf: &mut [u8]) -> io::Result<usize>
    ensures { IfOk result (λ n. n ≤ length buf.new) }
{
    let mut n = 0;
    while n < buf.len() {
        let more = file.read(&mut buf[n..])?;
        if more == 0 {
            break;
        }
        n += more;
    }
    Ok(n)
}

// A table that cannot be opened is told, and passed over.
fn replay_file<F: Fn(&[u8]) -> bool>(
    rt: &HostRuntime,
    name: &str,
    path: &str,
    line_agrees: F,
) -> io::Result<()>
    requires { F.IsAlwaysCallable line_agrees }
{
    let mut table = [0; TABLE_LEN];
    match fs::open(rt, path) {
        Ok(mut file) => {
            let len = read_full(&mut file, &mut table)?;
            let Tally { lines, differ } = replay(&table[..len], line_agrees);
            println!(rt; "{name}: {lines} replayed, {differ} differ")
        }
        Err(error) => eprintln!(rt; "{path}: {error}"),
    }
}

fn main(rt: HostRuntime) -> io::Result<()> {
    replay_file(&rt, "box headers", "box_headers.txt", box_header_agrees)?;
    replay_file(&rt, "readings", "readings.txt", reading_agrees)
}
