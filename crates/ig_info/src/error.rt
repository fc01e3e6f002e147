use ig_space::Text;
use thiserror::Error;

/// Why a text is refused as an info. A member of a scale has a path, as `scales[0].key`; the whole text is `$`.
#[derive(Debug, Drop, Error)]
pub enum InfoError {
    #[error("not a JSON text")]
    NotJson,
    #[error("member `{}` is missing or malformed", .path.as_str())]
    Member { path: Text },
    #[error("`{}` is not supported", .member.as_str())]
    Unsupported { member: Text },
    #[error("out of memory")]
    Memory,
}
