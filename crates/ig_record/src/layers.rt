//! Tests on directories of layers, of scales and of passes.
ghost use Rattle.std.specs.Prelude.{◌≡◌, ◌∷◌};
ghost use Rattle.std.specs.Str.{bytes_eq, is_utf8};
ghost use Rattle.ig_space.specs.Path.{joined};
ghost use Rattle.ig_record.specs.Sound.{before_name, has_key, has_scratch, is_in_layer, is_info_in as is_info_in_layer, is_info_of as is_info_of_dir, is_word};

use crate::InfoFile;
use ig_space::{Path, is_path_text};

/// The most bytes that a layer and the key of a scale have.
const LONGEST_WORD: usize = 100;

/// Whether the bytes are a path of at most 100 bytes.
pub(crate) fn is_word(text: &[u8]) -> bool
    ensures { result ≡ is_word text.now }
{
    is_path_text(text) && text.len() <= LONGEST_WORD
}

/// What stands before `/` and the name at the end of a path.
fn before_name<'a>(path: &'a [u8], name: &[u8]) -> &'a [u8]
    ensures { result.now ≡ before_name path.now name.now }
{
    let end = path.len().saturating_sub(name.len()).saturating_sub(1);
    &path[..end]
}

/// Whether the text is `/` and this name.
fn is_name(name: &[u8], text: &[u8]) -> bool
    ensures { result ≡ bytes_eq (47 ∷ name.now) text.now }
{
    match text {
        [first, rest @ ..] => *first == b'/' && rest == name,
        [] => false,
    }
}

/// Whether the text is this directory, `/` and this name.
pub(crate) fn is_joined(dir: &[u8], name: &[u8], text: &[u8]) -> bool
    ensures { result ≡ bytes_eq (joined dir.now name.now) text.now }
{
    if text.len() < dir.len() {
        return false;
    }
    let (front, back) = text.split_at(dir.len());
    front == dir && is_name(name, back)
}

/// Whether the directory is that of a scale with this key in a layer.
pub(crate) fn has_key(key: &[u8], dir: &[u8]) -> bool
    ensures { result ≡ has_key key.now dir.now }
{
    let layer = before_name(dir, key);
    is_word(layer) && is_joined(layer, key, dir)
}

/// Whether the info file is one of this layer.
pub(crate) fn is_info_in(layer: &[u8], info: &InfoFile) -> bool
    ensures { result ≡ is_info_in_layer layer.now info.now }
{
    is_joined(layer, b"info", info.path.as_bytes()) && is_text(info.text.as_bytes())
}

/// Whether the info file is one of the layer whose scale with this key is in the directory.
pub(crate) fn is_info_of(key: &[u8], dir: &[u8], info: &InfoFile) -> bool
    ensures { result ≡ is_info_of_dir key.now dir.now info.now }
{
    is_info_in(before_name(dir, key), info)
}

/// Whether the bytes are UTF-8.
fn is_text(bytes: &[u8]) -> bool
    ensures { result ≡ is_utf8 bytes.now }
{
    std::str::from_utf8(bytes).is_ok()
}

/// Whether the directory is that of a scale of this layer.
pub(crate) fn is_in_layer(layer: &[u8], dir: &[u8]) -> bool
    ensures { result ≡ is_in_layer layer.now dir.now }
{
    let key = &dir[(layer.len() + 1).min(dir.len())..];
    is_word(key) && is_joined(layer, key, dir)
}

/// Whether the scratch is this directory of the layer, for the scale with this key.
pub(crate) fn has_scratch(layer: &[u8], name: &[u8], key: &[u8], scratch: &Option<Path>) -> bool
    ensures { result ≡ has_scratch layer.now name.now key.now scratch.now }
{
    match scratch {
        None => false,
        Some(dir) => {
            let front = before_name(dir.as_bytes(), key);
            is_joined(layer, name, front) && is_joined(front, key, dir.as_bytes())
        }
    }
}
