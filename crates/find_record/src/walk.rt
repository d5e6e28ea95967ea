// Boxes of any bytes, one after another: the first of a type, and the one numbered n. Where there is none, the blank header.
ghost use Rattle.std.specs.Prelude.{◌≡◌, ◌+◌, ◌≤◌, get_or, length};
ghost use Rattle.boxes.specs.Header.{blank};
ghost use Rattle.boxes.specs.Walk.{walk, find};

use boxes::{BoxHeader, FourCc, parse_box_header};

const BLANK: BoxHeader = BoxHeader {
    box_type: 0,
    user_type: None,
    start: 0,
    payload_start: 0,
    payload_len: 0,
};

// From `at` on. `find_box` of boxes tells why there is none, and begins at the first byte.
#[tactic(auto, using(crate::proofs::WalkLaws::found_none, crate::proofs::WalkLaws::found_here, crate::proofs::WalkLaws::found_later, boxes::specs::Find::moves_on))]
pub fn first_box(s: &[u8], at: usize, box_type: FourCc) -> BoxHeader
    ensures value { result ≡ find box_type (walk s.now at) }
    ensures within { result.payload_start + result.payload_len ≤ length s.now }
{
    let mut at = at;
    while let Ok(header) = parse_box_header(s, at) {
        if header.box_type == box_type {
            return header;
        }
        at = header.payload_start + header.payload_len;
    }
    BLANK
}

// Counted from 0 on.
#[tactic(auto, using(crate::proofs::WalkLaws::numbered_none, crate::proofs::WalkLaws::numbered_here, crate::proofs::WalkLaws::numbered_later, boxes::specs::Find::moves_on))]
pub fn nth_box(s: &[u8], at: usize, n: usize) -> BoxHeader
    ensures value { result ≡ get_or (walk s.now at) n blank }
    ensures within { result.payload_start + result.payload_len ≤ length s.now }
{
    let mut at = at;
    let mut left = n;
    while let Ok(header) = parse_box_header(s, at) {
        if left == 0 {
            return header;
        }
        at = header.payload_start + header.payload_len;
        left -= 1;
    }
    BLANK
}
