// Expanding a record into the equivalent file: `MinimizedImage::equivalent_file` of mini.rs.
#![tactic(auto)]

pub mod entry;
pub mod file;
pub mod item_data;
pub mod refusal;
