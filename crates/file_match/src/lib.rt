// Whether a file is the equivalent file of a record whose chunks lie in the file itself, told without an output as long as the file: what lies
// between the chunks is written piece by piece and compared where it has to stand, and a chunk that stands in its place is not looked at.
#![tactic(auto)]

pub mod content;
pub mod file;
pub mod header;
pub mod slot_table;
