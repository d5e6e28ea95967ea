// 'grpl' with 'altr', where there is a gain map.
ghost use Rattle.std.specs.Prelude.{◌≡◌, ◌+◌, ◌≤◌, length};
ghost use Rattle.octets.specs.Overwrite.{Wrote};
ghost use Rattle.items.specs.ItemGroup.{altr_body, altr, grpl_box, grpl, grpl_len};

use crate::{ItemSet, len_if};
use boxes::{FourCc, put_boxed, put_full_box_header};
use mini::ItemKind;
use octets::put;

const GRPL: FourCc = 0x6772706C;

const ALTR: FourCc = 0x616C7472;

// 'grpl' with its one group of two items.
const GRPL_LEN: usize = 36;

#[tactic(auto, using(octets::specs::OverwriteLaws::writes), unfolding(crate::specs::ItemGroup::altr_body))]
fn put_altr_body(out: &mut [u8]) -> usize
    requires { 20 ≤ length out.old }
    ensures { Wrote out.old 0 20 altr_body out.new result }
{
    let at = put_full_box_header(out, 0, 0, 0);
    let at = put::<4>(out, at, u64::from(ItemKind::ALTR_GROUP.0));
    let at = put::<4>(out, at, 2);
    let at = put::<4>(out, at, u64::from(ItemKind::TMAP.0));
    put::<4>(out, at, u64::from(ItemKind::MAIN.0))
}

#[tactic(auto, using(boxes::specs::Boxed::boxes), unfolding(crate::specs::ItemGroup::altr))]
fn put_altr(out: &mut [u8], at: usize) -> usize
    requires { at + 28 ≤ length out.old }
    ensures { Wrote out.old at 28 altr out.new result }
{
    put_boxed(out, at, ALTR, put_altr_body)
}

#[tactic(auto, using(boxes::specs::Boxed::boxes), unfolding(crate::specs::ItemGroup::grpl_box))]
fn put_grpl_box(out: &mut [u8], at: usize) -> usize
    requires { at + 36 ≤ length out.old }
    ensures { Wrote out.old at 36 grpl_box out.new result }
{
    put_boxed(out, at, GRPL, |part| put_altr(part, 0))
}

#[tactic(auto, using(octets::specs::OverwriteLaws::nothing))]
pub fn put_grpl(out: &mut [u8], at: usize, s: ItemSet) -> usize
    requires { at + grpl_len s ≤ length out.old }
    ensures { Wrote out.old at (grpl_len s) (grpl s) out.new result }
{
    if s.tone_map {
        put_grpl_box(out, at)
    } else {
        at
    }
}

// How many bytes `put_grpl` writes.
pub fn grpl_len(s: ItemSet) -> usize
    ensures { (result ≡ grpl_len s) × (result ≤ 36) }
{
    len_if(s.tone_map, GRPL_LEN)
}
