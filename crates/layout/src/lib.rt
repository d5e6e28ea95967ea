// Box headers, file types and the desk check as bytes in a fixed layout (docs/ABI.md), for what crosses to C and Rust.
#![tactic(auto)]

pub mod check;
pub mod file_type;
pub mod header;
pub mod part;
