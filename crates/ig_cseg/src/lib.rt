//! Labels of one chunk in Neuroglancer's compressed_segmentation, of one channel, both ways: `decode` reads every lawful
//! layout and takes no memory, `encode` writes one.
#![tactic(auto)]

mod blocks;
mod check;
mod decoder;
mod encoder;
mod error;
mod fault;
mod gather;
mod header;
mod indexing;
mod pack;
mod parts;
mod table;
mod unpack;
mod words;

pub use decoder::decode;
pub use encoder::{encode, encode_fitting};
pub use error::EncodeError;
pub use fault::CsegFault;
