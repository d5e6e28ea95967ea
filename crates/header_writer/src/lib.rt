// The bits of a header: `MinimizedImage::to_box` of mini.rs up to the chunks.
#![tactic(auto)]

pub mod header;
