//! The queue that the words of a command name.
ghost use Rattle.std.specs.Prelude.{◌≡◌, ◌&&◌, IfSome, codes, map, option_map, true};
ghost use Rattle.ig_meaning.specs.Options.{begins_with, is_short_path, values_of};
ghost use Rattle.ig_meaning.specs.QueueWords.{after_scheme, holds, is_apart, queue_given, queue_in};
ghost use Rattle.ig_cli.specs.Options.{both, text_of};

use crate::options::{begins_with, is_short_path, value_of};

/// What follows `fq://` at the front of a text.
fn after_scheme(text: &str) -> Option<&str>
    ensures { option_map text_of result ≡ after_scheme text.now }
{
    text.strip_prefix("fq://")
}

/// The directory of the queue that a word names.
pub fn queue_in(text: &str) -> Option<&str>
    ensures value { option_map text_of result ≡ queue_in text.now }
    ensures path { IfSome result (λ path. is_short_path path.now ≡ true) }
{
    let path = after_scheme(text)?;
    if is_short_path(path) {
        Some(path)
    } else {
        None
    }
}

/// The directory of the queue that an option gives, where it is given.
pub fn queue_given<'a>(options: &[(&'a str, &'a str)]) -> Option<Option<&'a str>>
    ensures value { option_map (option_map text_of) result ≡ queue_given (values_of (codes "--queue") (map both options.now)) }
    ensures path { IfSome result (λ queue. IfSome queue (λ path. is_short_path path.now ≡ true)) }
{
    match value_of(options, "--queue")? {
        Some(text) => Some(Some(queue_in(text)?)),
        None => Some(None),
    }
}

/// Whether the path lies in the directory, at some depth.
fn holds(dir: &str, path: &str) -> bool
    ensures { result ≡ holds dir.now path.now }
{
    match path.as_bytes().strip_prefix(dir.as_bytes()) {
        Some(rest) => begins_with(rest, b'/'),
        None => false,
    }
}

/// Whether a layer is neither the queue's directory, nor lies inside it, nor holds it.
pub fn is_apart(queue: &str, layer: &str) -> bool
    ensures { result ≡ is_apart queue.now layer.now }
{
    layer != queue && !holds(queue, layer) && !holds(layer, queue)
}
