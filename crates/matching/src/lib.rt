// Whether bytes that are made piece by piece are those of a file, without making them whole: each piece is looked for where it has to stand. A
// function takes the place and gives back the one after, as in writing, and None where other bytes stand.
#![tactic(auto)]

ghost use Rattle.std.specs.Prelude.{◌≡◌, ◌≤◌, take, replicate, Some};
ghost use Rattle.std.specs.Fn.{FnOnceReturnsAtMut, FnOnceTakesAtMut};
ghost use Rattle.octets.specs.Part.{part_of};
ghost use Rattle.matching.specs.Matched.{matched};

use octets::{Span, part};

// The place after `piece`.
#[tactic(auto, unfolding(crate::specs::Matched::matched))]
pub fn match_bytes(file: &[u8], at: usize, piece: &[u8]) -> Option<usize>
    ensures { result ≡ matched file.now (Some at) piece.now }
{
    let rest = file.get(at..)?;
    rest.starts_with(piece).then(|| at + piece.len())
}

// The place after a part of the file itself. It is not looked at where it is the part that stands there.
#[tactic(auto, using(crate::specs::MatchedLaws::matched_part))]
pub fn match_part(file: &[u8], at: usize, x: Span) -> Option<usize>
    ensures { result ≡ matched file.now (Some at) (part_of file.now x.at x.len) }
{
    if at == x.at && x.is_within(file.len()) {
        return Some(at + x.len);
    }
    match_bytes(file, at, part(file, x))
}

// The place after what `write` writes, at most N bytes, at the start of the bytes that it is lent.
pub fn match_written<const N: usize, F: FnOnce(&mut [u8]) -> usize>(
    file: &[u8],
    at: usize,
    write: F,
) -> Option<usize>
    requires small { N ≤ 65535 }
    requires callable { FnOnceTakesAtMut F.FnOnce write (replicate N 0) }
    requires fits { (n : _) (p : _) → FnOnceReturnsAtMut F.FnOnce write (replicate N 0) n p → n ≤ N }
    ensures { (n : _) × (p : _) × FnOnceReturnsAtMut F.FnOnce write (replicate N 0) n p × (result ≡ matched file.now (Some at) (take n p)) }
{
    let mut piece = [0; N];
    let n = write(&mut piece);
    match_bytes(file, at, &piece[..n])
}
