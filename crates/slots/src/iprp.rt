// 'iprp': the properties and which items have them.
ghost use Rattle.std.specs.Prelude.{◌++◌, ◌+◌, ◌≤◌, length};
ghost use Rattle.octets.specs.Overwrite.{Wrote};
ghost use Rattle.slots.specs.Associations.{ipma, iprp};
ghost use Rattle.slots.specs.Lengths.{ipco_len, ipma_len, iprp_len};
ghost use Rattle.slots.specs.Slots.{ipco};
ghost use Rattle.slots.specs.Sound.{Sound};

use crate::associations::put_ipma;
use crate::groups::put_ipco;
use boxes::{FourCc, put_boxed};
use mini::MinimizedImage;

pub const IPRP: FourCc = 0x69707270;

#[tactic(auto, using(crate::proofs::Laws::used_laws), unfolding(crate::specs::Associations::ipma))]
fn iprp_body(out: &mut [u8], image: MinimizedImage, source: &[u8]) -> usize
    requires { (ipco_len image + ipma_len image ≤ length out.old) × Sound image source.now }
    ensures { Wrote out.old 0 (ipco_len image + ipma_len image) (ipco image source.now ++ ipma image source.now) out.new result }
{
    let at = put_ipco(out, 0, image, source);
    put_ipma(out, at, image)
}

#[tactic(auto, using(boxes::specs::Boxed::boxes, crate::specs::Bounds::iprp_most), unfolding(crate::specs::Associations::iprp))]
pub fn put_iprp(out: &mut [u8], at: usize, image: MinimizedImage, source: &[u8]) -> usize
    requires { (at + iprp_len image ≤ length out.old) × Sound image source.now }
    ensures { Wrote out.old at (iprp_len image) (iprp image source.now) out.new result }
{
    put_boxed(out, at, IPRP, |part| iprp_body(part, image, source))
}
