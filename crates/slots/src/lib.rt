// The item properties of the equivalent file: 'ipco' with its 32 slots, 'ipma' and 'iprp' (ISO/IEC 23008-12, O.4.6).
#![tactic(auto)]

pub mod associations;
pub mod groups;
pub mod iprp;
pub mod lengths;
pub mod slot;
