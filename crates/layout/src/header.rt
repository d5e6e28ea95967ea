// A box header as bytes.
ghost use Rattle.std.specs.Prelude.{◌+◌, ◌≤◌, length};
ghost use Rattle.octets.specs.Overwrite.{Wrote};
ghost use Rattle.layout.specs.HeaderBytes.{header_bytes, user_type_bytes};

use boxes::{BoxHeader, UserType, put_four_cc};
use octets::{put, put_u8, put_zeros};

// How many bytes a header is.
pub const HEADER_LEN: usize = 45;

#[tactic(auto, using(octets::specs::OverwriteLaws::writes))]
fn put_user_type(out: &mut [u8], at: usize, t: Option<UserType>) -> usize
    requires { at + 17 ≤ length out.old }
    ensures { Wrote out.old at 17 (user_type_bytes t) out.new result }
{
    let Some(UserType { high, low }) = t else {
        return put_zeros(out, at, 17);
    };
    let at = put_u8(out, at, 1);
    let at = put::<8>(out, at, high);
    put::<8>(out, at, low)
}

#[tactic(auto, using(octets::specs::OverwriteLaws::writes), unfolding(crate::specs::HeaderBytes::header_bytes))]
pub fn put_header(out: &mut [u8], at: usize, h: BoxHeader) -> usize
    requires { at + HEADER_LEN ≤ length out.old }
    ensures { Wrote out.old at HEADER_LEN (header_bytes h) out.new result }
{
    let at = put_four_cc(out, at, h.box_type);
    let at = put_user_type(out, at, h.user_type);
    let at = put::<8>(out, at, h.start as u64);
    let at = put::<8>(out, at, h.payload_start as u64);
    put::<8>(out, at, h.payload_len as u64)
}
