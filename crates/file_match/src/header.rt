// The header of a box whose body is compared after it.
ghost use Rattle.std.specs.Prelude.{◌≡◌, Some, ◌+◌, ◌<◌, ◌^◌, ◌≤◌, length};
ghost use Rattle.octets.specs.Overwrite.{Wrote};
ghost use Rattle.boxes.specs.Boxed.{box_header};
ghost use Rattle.matching.specs.Matched.{matched};

use boxes::{BOX_HEADER_LEN, FourCc, put_four_cc};
use matching::match_written;
use octets::put;

// `put_box_header` of boxes asks for room for the body too; here the body is compared and not written.
#[tactic(auto, using(octets::specs::OverwriteLaws::writes), unfolding(boxes::specs::Boxed::box_header))]
fn put_header(out: &mut [u8], len: usize, box_type: FourCc) -> usize
    requires { (8 ≤ length out.old) × (8 + len < 2 ^ 64) }
    ensures { Wrote out.old 0 8 (box_header box_type len) out.new result }
{
    let size = BOX_HEADER_LEN + len;
    let at = put::<4>(out, 0, size as u64);
    put_four_cc(out, at, box_type)
}

// The place after the header of a box with a body of `len` bytes.
#[tactic(auto, using(matching::specs::MatchedLaws::written_first))]
pub fn match_box_header(file: &[u8], at: usize, len: usize, box_type: FourCc) -> Option<usize>
    requires { 8 + len < 2 ^ 64 }
    ensures { result ≡ matched file.now (Some at) (box_header box_type len) }
{
    match_written::<8, _>(file, at, |out| put_header(out, len, box_type))
}
