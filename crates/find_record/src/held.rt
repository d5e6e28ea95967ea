// Where a file holds what its record is read from.
ghost use Rattle.find_record.specs.Holds.{Holds};

use crate::entries::items_in;
use crate::locations::item_span;
use crate::places::{body_of, ipco, meta};
use items::ItemSet;
use items::info::IINF;
use items::references::IREF;
use mini::ItemKind;
use octets::Span;

// Which items there are, the body of 'ipco', and the bytes of each item, of no length where the file has none.
#[derive(Clone, Copy, Debug, PartialEq, Eq)]
pub struct Held {
    pub items: ItemSet,
    pub ipco: Span,
    pub alpha: Span,
    pub tone_map: Span,
    pub gain_map: Span,
    pub main: Span,
    pub exif: Span,
    pub xmp: Span,
}

// What a file holds.
#[tactic(auto, unfolding(carried::specs::ReadFile::carried_in))]
pub fn held_of(file: &[u8]) -> Held
    ensures { Holds file.now result }
{
    let meta = meta(file);
    Held {
        items: items_in(body_of(meta, 4, IINF), body_of(meta, 4, IREF)),
        ipco: ipco(file),
        alpha: item_span(file, ItemKind::ALPHA),
        tone_map: item_span(file, ItemKind::TMAP),
        gain_map: item_span(file, ItemKind::GAIN_MAP),
        main: item_span(file, ItemKind::MAIN),
        exif: item_span(file, ItemKind::EXIF),
        xmp: item_span(file, ItemKind::XMP),
    }
}
