// The parameter page: its CRC, its fields and the house limits. `slices::byte_at` reads 0 past the end, so that every function takes any slice.
#![tactic(auto)]

pub mod crc;
pub mod fields;
pub mod limits;
pub mod table;
