// The boxes for high dynamic range, from the bodies that the record holds.
ghost use Rattle.std.specs.Prelude.{◌≡◌, ◌+◌, ◌≤◌, length};
ghost use Rattle.octets.specs.Overwrite.{Wrote};
ghost use Rattle.properties.specs.HdrBoxes.{cclv, cclv_len};

use crate::property::{put_box, put_full_box};
use boxes::FourCc;
use mini::cclv_more;

const CLLI: FourCc = 0x636C6C69;

const MDCV: FourCc = 0x6D646376;

const CCLV: FourCc = 0x63636C76;

const AMVE: FourCc = 0x616D7665;

const REVE: FourCc = 0x72657665;

const NDWT: FourCc = 0x6E647774;

// A box with its body. A cclv's first byte says how many of the bytes are its own.
#[derive(Clone, Copy, Debug, PartialEq, Eq)]
pub enum HdrBox {
    Clli([u8; 4]),
    Mdcv([u8; 24]),
    Cclv([u8; 37]),
    Amve([u8; 8]),
    Reve([u8; 20]),
    Ndwt([u8; 4]),
}

#[tactic(auto, using(crate::proofs::Laws::taken), unfolding(crate::specs::HdrBoxes::cclv))]
fn put_cclv(out: &mut [u8], at: usize, held: &[u8; 37]) -> usize
    requires { at + cclv_len held.now ≤ length out.old }
    ensures { Wrote out.old at (cclv_len held.now) (cclv held.now) out.new result }
{
    let len = cclv_more(held[0]) + 1;
    put_box(out, at, CCLV, &held[..len])
}

impl HdrBox {
    ghost use Rattle.properties.specs.HdrBoxes.{hdr_box, hdr_box_len};

    // How many bytes `put` writes: a box's header takes eight, that of a full box twelve. Here and in `put` case by case, as in the definitions: what
    // the cases share is in `put_box` and `put_full_box`.
    pub fn len(self) -> usize
        ensures { (result ≡ hdr_box_len self) × (result ≤ 45) }
    {
        match self {
            HdrBox::Clli(body) => 8 + body.len(),
            HdrBox::Mdcv(body) => 8 + body.len(),
            HdrBox::Cclv(held) => 9 + cclv_more(held[0]),
            HdrBox::Amve(body) => 8 + body.len(),
            HdrBox::Reve(body) => 12 + body.len(),
            HdrBox::Ndwt(body) => 12 + body.len(),
        }
    }

    // 'reve' and 'ndwt' are full boxes.
    #[tactic(auto, unfolding(crate::specs::HdrBoxes::clli, crate::specs::HdrBoxes::mdcv, crate::specs::HdrBoxes::amve, crate::specs::HdrBoxes::reve, crate::specs::HdrBoxes::ndwt))]
    pub fn put(self, out: &mut [u8], at: usize) -> usize
        requires { at + hdr_box_len self ≤ length out.old }
        ensures { Wrote out.old at (hdr_box_len self) (hdr_box self) out.new result }
    {
        match self {
            HdrBox::Clli(body) => put_box(out, at, CLLI, &body),
            HdrBox::Mdcv(body) => put_box(out, at, MDCV, &body),
            HdrBox::Cclv(held) => put_cclv(out, at, &held),
            HdrBox::Amve(body) => put_box(out, at, AMVE, &body),
            HdrBox::Reve(body) => put_full_box(out, at, REVE, &body),
            HdrBox::Ndwt(body) => put_full_box(out, at, NDWT, &body),
        }
    }
}
