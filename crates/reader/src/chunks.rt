// Chunks handed out as parts of the payload lent.
ghost use Rattle.octets.specs.Part.{Part};
ghost use Rattle.reader.specs.ChunkPart.{ChunkPart};

use mini::{Chunk, Span};
use octets::part;

// The bytes of a chunk where they lie. An absent chunk, or one that passes the payload, is the empty part at its start.
pub fn chunk(payload: &[u8], c: Chunk) -> &[u8]
    ensures { ChunkPart payload.entry c result }
{
    span(payload, c.unwrap_or_default())
}

// The same of a chunk that is always present: `part` under the reader's name.
pub fn span(payload: &[u8], s: Span) -> &[u8]
    ensures { Part payload.entry s.at s.len result }
{
    part(payload, s)
}
