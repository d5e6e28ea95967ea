// Runs corner cases of boxes.rs, of writing and of going back to a mini, and prints what comes back.
#![tactic(auto)]

mod boxes_rs;
mod limits;
mod restoring;

use std::io;

fn main(rt: HostRuntime) -> io::Result<()> {
    boxes_rs::headers(&rt)?;
    boxes_rs::payloads(&rt)?;
    boxes_rs::write(&rt)?;
    limits::dimensions(&rt)?;
    limits::metadata(&rt)?;
    limits::item_data(&rt)?;
    limits::codec_configs(&rt)?;
    restoring::not_carried(&rt)?;
    restoring::gain_map_without_data(&rt)?;
    restoring::empty_chunks(&rt)
}
