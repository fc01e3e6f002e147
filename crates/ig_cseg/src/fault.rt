use thiserror::Error;

/// Why bytes are not the compressed labels of a chunk. Blocks are counted from 0, x fastest, then y, then z.
#[derive(Clone, Copy, Debug, PartialEq, Eq, Error)]
pub enum CsegFault {
    #[error("not words")]
    NotWords,
    #[error("no channel")]
    NoChannel,
    #[error("header short")]
    HeaderShort,
    #[error("bad bits in block {block}")]
    BadBits { block: u64 },
    #[error("values outside in block {block}")]
    ValuesOutside { block: u64 },
    #[error("table outside in block {block}")]
    TableOutside { block: u64 },
}
