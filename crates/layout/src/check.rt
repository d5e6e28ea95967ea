// The desk check of a record as bytes: docs/ABI.md has the layout.
ghost use Rattle.std.specs.Prelude.{◌+◌, ◌≤◌, length};
ghost use Rattle.octets.specs.Overwrite.{Wrote};
ghost use Rattle.layout.specs.CheckBytes.{check_parts, size_bytes, check_bytes};

use crate::part::put_flag;
use mini::{DisplayConditions, MinimizedImage, Size};
use octets::put;

// How many bytes a desk check is.
pub const CHECK_LEN: usize = 14;

#[tactic(auto, using(octets::specs::OverwriteLaws::writes), unfolding(crate::specs::CheckBytes::check_parts))]
fn put_parts(out: &mut [u8], at: usize, meets: bool, d: DisplayConditions) -> usize
    requires { at + 6 ≤ length out.old }
    ensures { Wrote out.old at 6 (check_parts meets d) out.new result }
{
    let at = put_flag(out, at, meets);
    let at = put_flag(out, at, d.integer_samples);
    let at = put_flag(out, at, d.no_gain_map);
    let at = put_flag(out, at, d.exif_present);
    let at = put_flag(out, at, d.width_fits);
    put_flag(out, at, d.height_fits)
}

#[tactic(auto, using(octets::specs::OverwriteLaws::writes), unfolding(crate::specs::CheckBytes::size_bytes))]
fn put_size(out: &mut [u8], at: usize, s: Size) -> usize
    requires { at + 8 ≤ length out.old }
    ensures { Wrote out.old at 8 (size_bytes s) out.new result }
{
    let at = put::<4>(out, at, u64::from(s.width));
    put::<4>(out, at, u64::from(s.height))
}

#[tactic(auto, using(octets::specs::OverwriteLaws::writes), unfolding(crate::specs::CheckBytes::check_bytes))]
pub fn put_check(out: &mut [u8], at: usize, i: MinimizedImage) -> usize
    requires { at + CHECK_LEN ≤ length out.old }
    ensures { Wrote out.old at CHECK_LEN (check_bytes i) out.new result }
{
    let at = put_parts(out, at, i.meets_display_profile(), i.display_conditions());
    put_size(out, at, i.shown_size())
}
