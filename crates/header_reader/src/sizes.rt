// The sizes of the chunks, and the bits up to the byte boundary after the header.
ghost use Rattle.std.specs.Prelude.{◌≡◌, ◌≤◌};
ghost use Rattle.bits.specs.Run.{state, Run};
ghost use Rattle.mini.specs.Chunks.{stored_sizes};
ghost use Rattle.mini.specs.Cut.{sum};
ghost use Rattle.mini.specs.Read.{past_trailing_bits};
ghost use Rattle.mini.specs.Syntax.{chunk_sizes};

use bits::{Bits, ReadErrorKind};
use mini::{CODEC_CONFIG, ChunkSizes, Flags, GainMapHeader, ITEM_DATA, METADATA};

// The eleven sizes are of 28 bits at most, so their sum is at most 11 * 2^28. It stands in the clauses and not in `ChunkSizes`, which is the writer's
// too, where nothing bounds it.
pub fn read_sizes(b: Bits, payload: &[u8], f: Flags, g: GainMapHeader) -> (ChunkSizes, Bits)
    ensures run { Run (chunk_sizes f g) payload.now (state b) result.0 (state result.1) }
    ensures value_bound { sum (stored_sizes result.0) ≤ 2952790016 }
{
    let (large_metadata, b) = b.flag_if(payload, f.icc | f.exif | f.xmp | g.present);
    let (large_codec_config, b) = b.flag(payload);
    let (large_item_data, b) = b.flag(payload);
    let (icc, b) = b.minus1_if(payload, f.icc, large_metadata, METADATA);
    let (tmap_icc, b) = b.minus1_if(payload, g.present & g.tmap_icc, large_metadata, METADATA);
    let (gain_map_metadata, b) = b.size_if(payload, g.present, large_metadata, METADATA);
    let (gain_map_data, b) = b.size_if(payload, g.present, large_item_data, ITEM_DATA);
    let coded = g.present & (0 < gain_map_data);
    let (gain_map_codec_config, b) = b.size_if(payload, coded, large_codec_config, CODEC_CONFIG);
    let (main_codec_config, b) = b.size_if(payload, true, large_codec_config, CODEC_CONFIG);
    let (main_data, b) = b.minus1_if(payload, true, large_item_data, ITEM_DATA);
    let (alpha_data, b) = b.size_if(payload, f.alpha, large_item_data, ITEM_DATA);
    let coded = f.alpha & (0 < alpha_data);
    let (alpha_codec_config, b) = b.size_if(payload, coded, large_codec_config, CODEC_CONFIG);
    let (exif_xmp_compressed, b) = b.flag_if(payload, f.exif | f.xmp);
    let (exif, b) = b.minus1_if(payload, f.exif, large_metadata, METADATA);
    let (xmp, b) = b.minus1_if(payload, f.xmp, large_metadata, METADATA);
    let sizes = ChunkSizes {
        large_metadata,
        large_codec_config,
        large_item_data,
        icc,
        tmap_icc,
        gain_map_metadata,
        gain_map_data,
        gain_map_codec_config,
        main_codec_config,
        main_data,
        alpha_data,
        alpha_codec_config,
        exif_xmp_compressed,
        exif,
        xmp,
    };
    (sizes, b)
}

// Past zero bits up to the byte boundary.
pub fn read_trailing_bits(b: Bits, payload: &[u8]) -> Bits
    ensures { state result ≡ past_trailing_bits payload.now (state b) }
{
    let start = b.at;
    let (padding, b) = b.read(payload, start.to_boundary() as u32);
    b.test(start, padding == 0, ReadErrorKind::TrailingBits)
}
