// Where a file has the bytes of an item: the first location of its number in 'iloc'.
ghost use Rattle.std.specs.Prelude.{◌≡◌, ◌+◌, ◌<◌, ◌^◌, length};
ghost use Rattle.octets.specs.Part.{part_of};
ghost use Rattle.items.specs.OneLocation.{locations_of};
ghost use Rattle.items.specs.ReadLocations.{read_locations};
ghost use Rattle.carried.specs.ReadFile.{first_span, located};
ghost use Rattle.found.specs.Places.{item_place};

use crate::numbers::{number_2, number_4};
use crate::places::{body_of, meta};
use items::locations::ILOC;
use mini::ItemKind;
use octets::Span;

// Zeros where there is none. There are as many entries as the box counts; those past its end are read as zeros.
#[tactic(auto, using(crate::proofs::LocationLaws::entry_here, crate::proofs::LocationLaws::entry_later, crate::proofs::LocationLaws::no_entry), unfolding(items::specs::ReadLocations::read_locations))]
fn first_location(iloc: &[u8], id: ItemKind) -> Span
    ensures { result ≡ first_span (locations_of id.0 (read_locations iloc.now)) }
{
    for i in 0..usize::from(number_2(iloc, 6)) {
        let at = 8 + 16 * i;
        if number_2(iloc, at) == id.0 {
            return Span {
                at: number_4(iloc, at + 8) as usize,
                len: number_4(iloc, at + 12) as usize,
            };
        }
    }
    Span::default()
}

// What the file has of the location; its place may pass the file's end, and then the length is 0.
#[tactic(auto, using(crate::proofs::LocationLaws::held_len, crate::proofs::LocationLaws::held_bytes), unfolding(expander::specs::LocationsInFile::locations_in, expander::specs::LocationsInFile::iloc_in, found::specs::Places::item_place))]
pub fn item_span(file: &[u8], id: ItemKind) -> Span
    ensures place { result.at ≡ item_place file.now id.0 }
    ensures len { result.len ≡ length (located file.now id.0) }
    ensures bytes { part_of file.now result.at result.len ≡ located file.now id.0 }
    ensures ends { result.at + result.len < 2 ^ 64 }
{
    let iloc = body_of(meta(file), 4, ILOC);
    let span = first_location(iloc, id);
    Span {
        at: span.at,
        len: span.len.min(file.len().saturating_sub(span.at)),
    }
}
