// Binary STL of grid units: the facet writer and the reader.
#![tactic(auto)]

pub mod corner;
pub mod facet;
mod header;
pub mod reader;
pub mod writer;
