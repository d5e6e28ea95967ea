// The file type of an 'ftyp' body as bytes: docs/ABI.md has the layout.
ghost use Rattle.std.specs.Prelude.{◌+◌, ◌≤◌, length};
ghost use Rattle.octets.specs.Overwrite.{Wrote};
ghost use Rattle.layout.specs.FileTypeBytes.{file_type_bytes};

use crate::part::put_span;
use boxes::put_four_cc;
use ftyp::FileType;
use octets::{Span, put};

// How many bytes a file type is.
pub const FILE_TYPE_LEN: usize = 24;

#[tactic(auto, using(octets::specs::OverwriteLaws::writes), unfolding(crate::specs::FileTypeBytes::file_type_bytes))]
pub fn put_file_type(out: &mut [u8], at: usize, t: FileType<Span>) -> usize
    requires { at + FILE_TYPE_LEN ≤ length out.old }
    ensures { Wrote out.old at FILE_TYPE_LEN (file_type_bytes t) out.new result }
{
    let at = put_four_cc(out, at, t.major_brand);
    let at = put::<4>(out, at, u64::from(t.minor_version));
    put_span(out, at, t.compatible_brands)
}
