ghost use Rattle.std.specs.Prelude.{◌≡◌, ◌&&◌, ◌||◌, ◌==◌, not};
ghost use Rattle.std.specs.List.{list_all};
ghost use Rattle.ig_space.specs.Path.{is_segment, is_segment_byte};

use crate::path::is_byte_of_segment;

/// Whether all bytes may stand in a segment of a path.
fn are_bytes_of_segment(text: &[u8]) -> bool
    ensures { result ≡ list_all is_segment_byte text.now }
{
    text.iter().all(|c| is_byte_of_segment(*c))
}

/// Whether the bytes are one segment of a path.
pub fn is_segment_text(text: &[u8]) -> bool
    ensures { result ≡ is_segment text.now }
{
    match text {
        [] => false,
        [first, ..] => !(*first == b'.' || *first == b'-') && are_bytes_of_segment(text),
    }
}
