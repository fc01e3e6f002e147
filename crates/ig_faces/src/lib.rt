//! Files of numbers between the passes: the parts of a box and their labels, the planes of its six faces, the links of parts
//! of boxes side by side, and the table of the parts' numbers. Numbers stand with their lowest byte first. What is read is
//! tested whole: a refusal names the byte where the first wrong field begins.
#![tactic(auto)]

mod counted;
mod error;
mod faces;
mod linking;
mod links;
mod numbers;
mod parts;
mod planes;
mod records;
mod table;

pub use error::{BadFile, FileError};
pub use faces::faces_of;
pub use linking::links_of;
pub use links::{Link, Links, read_links, write_links};
pub use parts::{Parts, read_parts, write_parts};
pub use planes::{Plane, Planes, read_planes, write_planes};
pub use records::{
    Record, Rule, find_wrong, has_length, read_file, read_records, write_file, write_records,
};
pub use table::{Table, read_table, write_table};
