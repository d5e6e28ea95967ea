// What several layouts have: a flag, a chunk, a span.
ghost use Rattle.std.specs.Prelude.{◌+◌, ◌≤◌, length};
ghost use Rattle.octets.specs.Overwrite.{Wrote};
ghost use Rattle.layout.specs.PartBytes.{flag_bytes, chunk_bytes, span_bytes};

use mini::{Chunk, Span};
use octets::{put, put_u8, put_zeros};

pub fn put_flag(out: &mut [u8], at: usize, on: bool) -> usize
    requires { at + 1 ≤ length out.old }
    ensures { Wrote out.old at 1 (flag_bytes on) out.new result }
{
    put_u8(out, at, u8::from(on))
}

#[tactic(auto, using(octets::specs::OverwriteLaws::writes), unfolding(crate::specs::PartBytes::span_bytes))]
pub fn put_span(out: &mut [u8], at: usize, s: Span) -> usize
    requires { at + 16 ≤ length out.old }
    ensures { Wrote out.old at 16 (span_bytes s) out.new result }
{
    let at = put::<8>(out, at, s.at as u64);
    put::<8>(out, at, s.len as u64)
}

// What is absent is zeros, here, in header.rt and in other layouts; with a closure for the rest a row of parts does not prove (`len_if`, items).
#[tactic(auto, using(octets::specs::OverwriteLaws::writes))]
pub fn put_chunk(out: &mut [u8], at: usize, c: Chunk) -> usize
    requires { at + 17 ≤ length out.old }
    ensures { Wrote out.old at 17 (chunk_bytes c) out.new result }
{
    let Some(span) = c else {
        return put_zeros(out, at, 17);
    };
    let at = put_u8(out, at, 1);
    put_span(out, at, span)
}
