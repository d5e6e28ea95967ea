// The record found in a file, whatever its bytes are. What is not there is read as zeros, as the definitions have it.
#![tactic(auto)]

pub mod bodies;
pub mod chunks;
pub mod entries;
pub mod gain_map;
pub mod held;
pub mod ipco;
pub mod locations;
pub mod numbers;
pub mod picture;
pub mod places;
pub mod record;
pub mod walk;
