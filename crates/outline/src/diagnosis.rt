// Where reading a payload broke off, as bytes (docs/ABI.md, `bustardcase_diagnose`).
ghost use Rattle.std.specs.Prelude.{◌≡◌, ◌+◌, ◌≤◌, length, IfSome};
ghost use Rattle.std.specs.List.{position};
ghost use Rattle.octets.specs.Overwrite.{Wrote};
ghost use Rattle.mini.specs.Chunks.{given_sizes, stored_sizes};
ghost use Rattle.mini.specs.Cut.{sum};
ghost use Rattle.mini.specs.Read.{read_mini};
ghost use Rattle.outline.specs.Chunks.{stored_order};
ghost use Rattle.outline.specs.Diagnosis.{is_refused, part_number, first_chunk_past, accepted_header, past_chunk_of, past_chunk_bytes, chunk_entries_of, diagnosis_bytes};
ghost use Rattle.outline.specs.Ends.{states};

use crate::chunks::{STORED_ORDER, put_entries};
use crate::ends::{put_ends, read_ends};
use bits::Bits;
use header_reader::read_header;
use header_reader::sizes::read_trailing_bits;
use mini::{ChunkSizes, Header};
use octets::{put, put_u8, put_zeros};
use reader::image::image_of;
use reader::refusal;
use refusals::Refusal;

pub const DIAGNOSIS_LEN: usize = 321;

// A chunk that ends past the payload: its number, that of docs/ABI.md, its length, and how many of its bytes are missing.
#[derive(Clone, Copy, Debug, PartialEq, Eq)]
pub struct PastChunk {
    pub number: u8,
    pub len: usize,
    pub missing: usize,
}

// The refusal's number and its bit, both 0 for none.
fn refusal_of(payload: &[u8]) -> (u8, usize)
    ensures refusal { result.0 ≡ (read_mini payload.now).refusal }
    ensures bit { result.1 ≡ (read_mini payload.now).bit }
{
    match refusal(payload) {
        Some(error) => (error.number(), error.value()),
        None => (0, 0),
    }
}

// The number of the first part after which there is a refusal, 0 for none.
fn refused_part(ends: &[Bits; 12]) -> u8
    ensures { result ≡ part_number (position is_refused (states ends.now)) }
{
    match ends.iter().position(|b| 0 < b.refusal) {
        Some(k) => k as u8 + 1,
        None => 0,
    }
}

// The sizes by the chunks' numbers: by name, as the header gives them.
#[tactic(auto, unfolding(mini::specs::Chunks::given_sizes))]
fn given_sizes(z: ChunkSizes) -> [usize; 11]
    ensures { result ≡ given_sizes z }
{
    [
        z.icc,
        z.tmap_icc,
        z.gain_map_metadata,
        z.gain_map_data,
        z.gain_map_codec_config,
        z.main_codec_config,
        z.main_data,
        z.alpha_data,
        z.alpha_codec_config,
        z.exif,
        z.xmp,
    ]
}

// The first chunk that passes the end of so many bytes.
#[tactic(auto, using(crate::proofs::FirstPast::next_fits, crate::proofs::FirstPast::next_past, crate::proofs::FirstPast::none_left), unfolding(crate::specs::Chunks::stored_order, crate::specs::Chunks::size_of))]
fn first_chunk_past(z: ChunkSizes, room: usize) -> Option<PastChunk>
    ensures { result ≡ first_chunk_past z room stored_order }
{
    let sizes = given_sizes(z);
    let mut room = room;
    for number in STORED_ORDER {
        let len = sizes[usize::from(number) - 1];
        if room < len {
            return Some(PastChunk {
                number,
                len,
                missing: len - room,
            });
        }
        room -= len;
    }
    None
}

// The header, read again for its chunks, and the byte at which they begin; None where it is refused.
fn accepted_header(payload: &[u8]) -> Option<(Header, usize)>
    ensures header { result ≡ accepted_header payload.now }
    ensures bound { IfSome result (λ h. h.1 + sum (stored_sizes h.0.sizes) ≤ 18446744073709551615) }
{
    let (header, b) = read_header(Bits::new(), payload);
    let at = read_trailing_bits(b, payload).place().ok()?;
    Some((header, at.byte()))
}

// The first of a header's chunks that ends past `total` bytes.
fn past_chunk(total: usize, header: Option<(Header, usize)>) -> Option<PastChunk>
    ensures { result ≡ past_chunk_of total header }
{
    let (header, start) = header?;
    first_chunk_past(header.sizes, total.saturating_sub(start))
}

#[tactic(auto, using(octets::specs::OverwriteLaws::writes))]
fn put_past_chunk(out: &mut [u8], at: usize, c: Option<PastChunk>) -> usize
    requires { at + 17 ≤ length out.old }
    ensures { Wrote out.old at 17 (past_chunk_bytes c) out.new result }
{
    let Some(chunk) = c else {
        return put_zeros(out, at, 17);
    };
    let at = put_u8(out, at, chunk.number);
    let at = put::<8>(out, at, chunk.len as u64);
    put::<8>(out, at, chunk.missing as u64)
}

// A header's chunks, as in an outline, whether or not the payload has their bytes; zeros for none.
#[tactic(auto, unfolding(crate::specs::Chunks::stored_order))]
fn put_chunk_entries(out: &mut [u8], at: usize, header: Option<(Header, usize)>) -> usize
    requires bound { IfSome header (λ h. h.1 + sum (stored_sizes h.0.sizes) ≤ 18446744073709551615) }
    requires room { at + 198 ≤ length out.old }
    ensures { Wrote out.old at 198 (chunk_entries_of header) out.new result }
{
    let Some((header, start)) = header else {
        return put_zeros(out, at, 198);
    };
    put_entries(out, at, image_of(header, start), &STORED_ORDER)
}

pub fn put_diagnosis(out: &mut [u8], at: usize, payload: &[u8]) -> usize
    requires { at + DIAGNOSIS_LEN ≤ length out.old }
    ensures { Wrote out.old at DIAGNOSIS_LEN (diagnosis_bytes payload.now) out.new result }
{
    let (refusal, bit) = refusal_of(payload);
    let ends = read_ends(payload);
    let header = accepted_header(payload);
    let at = put_u8(out, at, refusal);
    let at = put::<8>(out, at, bit as u64);
    let at = put_u8(out, at, refused_part(&ends));
    let at = put_ends(out, at, &ends);
    let at = put_past_chunk(out, at, past_chunk(payload.len(), header));
    put_chunk_entries(out, at, header)
}
