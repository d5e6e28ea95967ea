// Where a file has the boxes that its record is read from, whatever its bytes are.
ghost use Rattle.std.specs.Prelude.{◌≡◌, ◌+◌, ◌≤◌, length};
ghost use Rattle.octets.specs.Part.{part_of};
ghost use Rattle.boxes.specs.BoxesIn.{body_of};
ghost use Rattle.expander.specs.LocationsInFile.{meta_in};
ghost use Rattle.carried.specs.ReadFile.{ipco_in};
ghost use Rattle.found.specs.Places.{place_of, ipco_place};

use crate::walk::first_box;
use boxes::{FourCc, payload};
use expander::file::META;
use octets::{Span, part};
use slots::groups::IPCO;
use slots::iprp::IPRP;

// The body of the first box of a type, of those from `at` on; the empty part where there is none.
pub fn body_of(s: &[u8], at: usize, box_type: FourCc) -> &[u8]
    ensures { result.now ≡ body_of box_type s.entry.now at }
{
    payload(s, first_box(s, at, box_type))
}

// The body of 'meta'.
#[tactic(auto, unfolding(expander::specs::LocationsInFile::meta_in))]
pub fn meta(file: &[u8]) -> &[u8]
    ensures { result.now ≡ meta_in file.entry.now }
{
    body_of(file, 0, META)
}

// Where in the file the body of the first box of a type lies, of those from `at` on in a part of it; empty, at that part's start, where there is
// none.
#[tactic(auto, using(crate::proofs::PlaceLaws::part_of_part, crate::proofs::PlaceLaws::length_part))]
fn inner(file: &[u8], outer: Span, at: usize, box_type: FourCc) -> Span
    requires { outer.at + outer.len ≤ length file.now }
    ensures place { result.at ≡ outer.at + place_of box_type (part_of file.now outer.at outer.len) at }
    ensures bytes { part_of file.now result.at result.len ≡ body_of box_type (part_of file.now outer.at outer.len) at }
    ensures within { result.at + result.len ≤ length file.now }
{
    let header = first_box(part(file, outer), at, box_type);
    Span {
        at: outer.at + header.payload_start,
        len: header.payload_len,
    }
}

// Where the body of 'ipco' lies, which is in 'iprp', and this in 'meta', behind its version and flags.
#[tactic(auto, using(crate::proofs::PlaceLaws::whole), unfolding(expander::specs::LocationsInFile::meta_in, carried::specs::ReadFile::ipco_in))]
pub fn ipco(file: &[u8]) -> Span
    ensures place { result.at ≡ ipco_place file.now }
    ensures bytes { part_of file.now result.at result.len ≡ ipco_in file.now }
    ensures within { result.at + result.len ≤ length file.now }
{
    let whole = Span {
        at: 0,
        len: file.len(),
    };
    let meta = inner(file, whole, 0, META);
    let iprp = inner(file, meta, 4, IPRP);
    inner(file, iprp, 0, IPCO)
}
