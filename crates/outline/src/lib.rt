// Where the parts of a payload lie, and where its reading broke off, as bytes (docs/ABI.md, `bustardcase_outline` and `bustardcase_diagnose`).
#![tactic(auto)]

ghost use Rattle.std.specs.Prelude.{◌+◌, ◌≤◌, length};
ghost use Rattle.octets.specs.Overwrite.{Wrote};
ghost use Rattle.outline.specs.OutlineBytes.{outline_of};

pub mod chunks;
pub mod diagnosis;
pub mod ends;

use mini::MinimizedImage;
use octets::put;

pub const OUTLINE_LEN: usize = 500;

// The outline of a payload whose record is `i`.
#[tactic(auto, unfolding(crate::specs::Chunks::given_order, crate::specs::Chunks::stored_order))]
pub fn put_outline(out: &mut [u8], at: usize, payload: &[u8], i: MinimizedImage) -> usize
    requires { at + OUTLINE_LEN ≤ length out.old }
    ensures { Wrote out.old at OUTLINE_LEN (outline_of payload.now i) out.new result }
{
    let at = ends::put_ends(out, at, &ends::read_ends(payload));
    let at = chunks::put_entries(out, at, i, &chunks::GIVEN_ORDER);
    let at = chunks::put_entries(out, at, i, &chunks::STORED_ORDER);
    put::<8>(out, at, chunks::ignored(payload.len(), i) as u64)
}
