// Refusal 10: whether every present chunk lies within the source. One by one, as the definition names them: a gain map's only where there is one.
ghost use Rattle.std.specs.Prelude.{◌≡◌};
ghost use Rattle.mini.specs.Same.{chunk_in, gain_in, well_placed};

use mini::{Chunk, MinimizedImage};

fn chunk_within(c: Chunk, n: usize) -> bool
    ensures { result ≡ chunk_in c n }
{
    c.is_none_or(|x| x.is_within(n))
}

fn gain_map_within(i: MinimizedImage, n: usize) -> bool
    ensures { result ≡ gain_in i n }
{
    let g = i.gain_map;
    chunk_within(g.codec_config, n)
        && chunk_within(g.tmap_icc, n)
        && g.metadata.is_within(n)
        && g.data.is_within(n)
}

#[tactic(auto, unfolding(mini::specs::Same::well_placed))]
pub fn well_placed(i: MinimizedImage, source: &[u8]) -> bool
    ensures { result ≡ well_placed i source.now }
{
    let n = source.len();
    i.main_codec_config.is_within(n)
        && chunk_within(i.alpha_codec_config, n)
        && (!i.has_gain_map || gain_map_within(i, n))
        && chunk_within(i.icc, n)
        && i.alpha_data.is_within(n)
        && i.main_data.is_within(n)
        && chunk_within(i.exif, n)
        && chunk_within(i.xmp, n)
}
