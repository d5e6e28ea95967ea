// The first box of a type among boxes that follow one another: `find_box` of boxes.rs.
ghost use Rattle.std.specs.Prelude.{◌≡◌};
ghost use Rattle.boxes.specs.Find.{find_box};

use crate::{BoxHeader, FourCc, HeaderError, parse_box_header};

// For every buffer and every type. It ends, since a box has at least the eight bytes of its header; a `loop`, since nothing counts the boxes before.
#[tactic(auto, using(crate::specs::Find::found_none, crate::specs::Find::found_here, crate::specs::Find::found_later, crate::specs::Find::moves_on))]
pub fn find_box(buf: &[u8], box_type: FourCc) -> Result<BoxHeader, HeaderError>
    ensures { result ≡ find_box box_type buf.now }
{
    let mut at = 0;
    loop {
        let header = parse_box_header(buf, at)?;
        if header.box_type == box_type {
            return Ok(header);
        }
        at = header.payload_start + header.payload_len;
    }
}
