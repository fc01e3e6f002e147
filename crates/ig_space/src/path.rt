ghost use Rattle.std.specs.Prelude.{◌≡◌, ◌≤◌, ◌+◌, if◌then◌else◌, ◌&&◌, ◌||◌, ◌==◌, not, IfOk, IfSome, IsSome, IsTrue, ◌↔◌, true, length, slice_get, string_bytes};
ghost use Rattle.std.specs.Option.{option_copied};
ghost use Rattle.std.specs.List.{list_all};
ghost use Rattle.ig_space.specs.Path.{is_path, is_segment, is_segment_byte, segments, joined};

use crate::list::TryClone;
use std::alloc::{AllocError, Global};
use std::marker::Model;

/// The most bytes that a path has.
pub const LONGEST_PATH: usize = 400;

/// A path of a file under the root of a store: 1 to 400 bytes, segments joined by `/`. A segment is made of ASCII
/// letters, digits, `_`, `-` and `.`, isn't empty, and begins with neither `.` nor `-`.
#[derive(Debug, Drop)]
pub struct Path {
    text: String,
}

impl Model for Path {
    ghost use Rattle.std.specs.Prelude.{List, ℕ, ◌≡◌, true, string_bytes};
    ghost use Rattle.ig_space.specs.Path.{is_path};

    ghost Value = { List ℕ };

    ghost view = { λ p. string_bytes p.text };

    ghost invariant = { λ p. is_path (string_bytes p.text) ≡ true };
}

/// Whether the byte may stand in a segment of a path.
pub(crate) fn is_byte_of_segment(c: u8) -> bool
    ensures { result ≡ is_segment_byte c }
{
    c.is_ascii_lowercase()
        || c.is_ascii_uppercase()
        || c.is_ascii_digit()
        || c == b'_'
        || c == b'-'
        || c == b'.'
}

/// Whether the byte may come next, where a segment begins or goes on.
fn may_come(begins: bool, c: u8) -> bool
    ensures { result ≡ (if c == 47 then not begins else (is_segment_byte c && not (begins && (c == 46 || c == 45)))) }
{
    if c == b'/' {
        !begins
    } else {
        is_byte_of_segment(c) && !(begins && (c == b'.' || c == b'-'))
    }
}

/// Whether each part between the `/` of a text is a segment.
fn has_segments(text: &[u8]) -> bool
    ensures { result ≡ list_all is_segment (segments text.now) }
{
    let mut begins = true;
    for c in text {
        if !may_come(begins, *c) {
            return false;
        }
        begins = *c == b'/';
    }
    !begins
}

/// Whether the bytes are a path.
#[tactic(auto, unfolding(crate::specs::Path::is_path))]
pub fn is_path_text(text: &[u8]) -> bool
    ensures { result ≡ is_path text.now }
{
    text.len() <= LONGEST_PATH && has_segments(text)
}

/// The name in the directory.
fn joined_text(alloc: Global, dir: &str, name: &str) -> Result<String, AllocError>
    ensures { IfOk result (λ text. string_bytes text ≡ joined dir.now name.now) }
{
    format!(in alloc; "{dir}/{name}")
}

impl Path {
    /// The path of this text; `None` exactly where it isn't one.
    pub fn new(alloc: Global, text: &str) -> Result<Option<Self>, AllocError>
        ensures some { IfOk result (λ path. IsSome path ↔ (is_path text.now ≡ true)) }
        ensures same { IfOk result (λ path. IfSome path (λ path. path ≡ text.now)) }
    {
        if !is_path_text(text.as_bytes()) {
            return Ok(None);
        }
        Ok(Some(Path {
            text: String::from_str(alloc, text)?,
        }))
    }

    /// The path of a text that is one, which keeps its memory.
    pub(crate) fn of_string(text: String) -> Self
        requires { is_path (string_bytes text) ≡ true }
        ensures { result ≡ string_bytes text }
    {
        Path { text }
    }

    /// This path and then the other, joined by `/`; `None` exactly where that has more than 400 bytes.
    pub fn join(&self, name: &Path) -> Result<Option<Self>, AllocError>
        ensures some { IfOk result (λ path. IsSome path ↔ (length self.now + 1 + length name.now ≤ 400)) }
        ensures joined { IfOk result (λ path. IfSome path (λ path. path ≡ joined self.now name.now)) }
    {
        let (dir, name) = (self.text.as_str(), name.text.as_str());
        if dir.len() + name.len() >= LONGEST_PATH {
            return Ok(None);
        }
        let text = joined_text(*self.text.allocator(), dir, name)?;
        Ok(Some(Path { text }))
    }

    /// The number of its bytes.
    pub fn len(&self) -> usize
        ensures len { result ≡ length self.now }
        ensures bound { result ≤ 400 }
    {
        let len = self.text.len();
        prove!(len <= 400);
        len
    }

    /// The byte at this place, counted from 0.
    pub fn get(&self, place: usize) -> Option<&u8>
        ensures { option_copied result ≡ slice_get self.now place }
    {
        self.text.as_bytes().get(place)
    }

    pub fn as_str(&self) -> &str
        ensures value { result.now ≡ self.now }
        ensures path { is_path result.now ≡ true }
    {
        self.text.as_str()
    }

    pub fn as_bytes(&self) -> &[u8]
        ensures value { result.now ≡ self.now }
        ensures path { is_path result.now ≡ true }
    {
        self.text.as_bytes()
    }
}

impl TryClone for Path {
    fn copy(&self) -> Result<Self, AllocError> {
        Ok(Path {
            text: self.text.clone()?,
        })
    }
}
