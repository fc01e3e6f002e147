//! The `info` file of a volume (Neuroglancer precomputed volume format, "info JSON file specification"): which texts
//! are taken and which cause each refusal names, and the info of a new layer. It stands on `serde_json`; what is no
//! scale that this tool handles is refused here, and nowhere later.
#![tactic(auto)]

mod added;
mod dest;
mod error;
mod floats;
mod info;
mod parts;
mod read;
mod read_geometry;
mod read_kind;
mod read_scale;
mod read_scales;
mod refusal;
mod scale;

pub use added::with_scale;
pub use dest::{dest_info, point_value};
pub use error::InfoError;
pub use info::{Info, write_info};
pub use parts::point_within;
pub use read::read_info;
pub use scale::Scale;
