//! Options among the words of a command, and the values of options.
ghost use Rattle.std.specs.Prelude.{◌≡◌, ◌<◌, ◌≤◌, ◌&&◌, ◌∷◌, List, ℕ, length, map, option_map, IfOk, IfSome, IsNone, OnOk};
ghost use Rattle.std.specs.Str.{all_ascii_digits};
ghost use Rattle.ig_space.specs.Path.{within};
ghost use Rattle.ig_meaning.specs.Options.{begins_with, cut_at, is_short_path, number_in, number_of, parts_of, side_of, sides_of, value_or, values_of};
ghost use Rattle.ig_stage.specs.Requests.{HasSides};
ghost use Rattle.ig_cli.specs.Options.{both, lent};
ghost use Rattle.ig_cli.specs.Parts.{read_on, shown, with_last_option, with_last_rest};
ghost use Rattle.ig_cli.specs.Words.{texts_of};

use ig_space::{Point, is_path_text};
use std::alloc::{AllocError, Global};

/// The options with their values, and the remaining words, each in order.
#[derive(Drop)]
pub struct Parts<'a> {
    pub options: Vec<(&'a str, &'a str)>,
    pub rest: Vec<&'a str>,
}

/// What the next word is.
#[derive(Clone, Copy)]
enum Next<'a> {
    /// An option, a remaining word, or `--`.
    Any,
    /// The value of this option.
    Value(&'a str),
    /// A remaining word, as each after `--`.
    Rest,
}

/// The longest side of a box or a chunk that an option may give, in voxels.
const LONGEST_SIDE: u64 = 16777216;

/// The most bytes of the path of a layer or a queue.
const MOST_BYTES: usize = 100;

/// The most digits of a number.
const MOST_DIGITS: usize = 10;

/// Whether all bytes are ASCII digits.
fn are_digits(text: &[u8]) -> bool
    ensures { result ≡ all_ascii_digits text.now }
{
    text.iter().all(|c| c.is_ascii_digit())
}

/// Whether the text is one to ten digits.
fn is_number(text: &[u8]) -> bool
    ensures { result ≡ (all_ascii_digits text.now && within 1 10 (length text.now)) }
{
    are_digits(text) && 1 <= text.len() && text.len() <= MOST_DIGITS
}

/// The number that one to ten digits write.
fn number_of(text: &str) -> Option<u64>
    ensures { result ≡ number_of text.now }
{
    if is_number(text.as_bytes()) {
        text.parse().ok()
    } else {
        None
    }
}

/// That number, where it is within these limits.
pub fn number_in(text: &str, low: u64, high: u64) -> Option<u64>
    ensures value { result ≡ number_in low high text.now }
    ensures low { IfSome result (λ n. low ≤ n) }
    ensures high { IfSome result (λ n. n ≤ high) }
{
    let number = number_of(text)?;
    if low <= number && number <= high {
        Some(number)
    } else {
        None
    }
}

/// What stands before and after the first such character.
fn cut(text: &str, mark: char) -> Option<(&str, &str)>
    requires { mark < 128 }
    ensures { option_map both result ≡ cut_at mark text.now }
{
    text.split_once(mark)
}

/// Whether the word is a path of at most 100 bytes.
pub fn is_short_path(word: &str) -> bool
    ensures { result ≡ is_short_path word.now }
{
    is_path_text(word.as_bytes()) && word.len() <= MOST_BYTES
}

/// A side of a box or a chunk, in voxels.
fn side_of(text: &str) -> Option<u64>
    ensures value { result ≡ side_of text.now }
    ensures some { IfSome result (λ n. 1 ≤ n) }
    ensures limit { IfSome result (λ n. n ≤ 16777216) }
{
    number_in(text, 1, LONGEST_SIDE)
}

/// Three sides, in voxels: `X,Y,Z`.
#[tactic(auto, unfolding(ig_meaning::specs::Options::sides_of))]
pub fn sides_of(text: &str) -> Option<Point>
    ensures value { result ≡ sides_of text.now }
    ensures sides { IfSome result HasSides }
{
    let (x, rest) = cut(text, ',')?;
    let (y, z) = cut(rest, ',')?;
    Some(Point {
        x: side_of(x)?,
        y: side_of(y)?,
        z: side_of(z)?,
    })
}

/// The value of the option with this name, where it is given; `None` exactly where it is given more than once.
pub fn value_of<'a>(options: &[(&'a str, &'a str)], name: &str) -> Option<Option<&'a str>>
    ensures once { IfSome result (λ value. values_of name.now (map both options.now) ≡ lent value) }
    ensures again { IsNone result → 2 ≤ length (values_of name.now (map both options.now)) }
{
    let mut found = None;
    for option in options {
        if option.0 == name {
            if found.is_some() {
                return None;
            }
            found = Some(option.1);
        }
    }
    Some(found)
}

/// The number that the option with this name gives, within these limits; the default where it is not given.
pub fn number_or(
    options: &[(&str, &str)],
    name: &str,
    default: u64,
    low: u64,
    high: u64,
) -> Option<u64>
    requires low { low ≤ default }
    requires high { default ≤ high }
    ensures value { result ≡ value_or default (number_in low high) (values_of name.now (map both options.now)) }
    ensures low { IfSome result (λ n. low ≤ n) }
    ensures high { IfSome result (λ n. n ≤ high) }
{
    match value_of(options, name)? {
        Some(text) => number_in(text, low, high),
        None => Some(default),
    }
}

impl<'a> Parts<'a> {
    fn add_option(&mut self, name: &'a str, value: &'a str) -> Result<(), AllocError>
        ensures { OnOk result (shown self.new ≡ with_last_option (shown self.old) name.now value.now) }
    {
        self.options.push((name, value))?;
        Ok(())
    }

    fn add_rest(&mut self, word: &'a str) -> Result<(), AllocError>
        ensures { OnOk result (shown self.new ≡ with_last_rest (shown self.old) word.now) }
    {
        self.rest.push(word)?;
        Ok(())
    }
}

/// Whether the first byte is this one.
pub fn begins_with(text: &[u8], mark: u8) -> bool
    ensures { result ≡ begins_with mark text.now }
{
    match text {
        [first, ..] => *first == mark,
        [] => false,
    }
}

/// Whether the word begins with a dash, as options do.
fn is_marked(word: &str) -> bool
    ensures { result ≡ begins_with 45 word.now }
{
    begins_with(word.as_bytes(), b'-')
}

/// Takes a word that is no option's value, and stands before `--`. Gives what the word after it is.
fn take_any<'a>(parts: &mut Parts<'a>, word: &'a str) -> Result<Next<'a>, AllocError>
    ensures { IfOk result (λ next. (words : List (List ℕ)) →
        read_on (shown parts.old) Next.Any (word.now ∷ words) ≡ read_on (shown parts.new) next words) }
{
    if word == "--" {
        return Ok(Next::Rest);
    }
    if !is_marked(word) {
        parts.add_rest(word)?;
        return Ok(Next::Any);
    }
    let Some((name, value)) = cut(word, '=') else {
        return Ok(Next::Value(word));
    };
    parts.add_option(name, value)?;
    Ok(Next::Any)
}

/// Takes a word. Gives what the word after it is.
fn take<'a>(parts: &mut Parts<'a>, next: Next<'a>, word: &'a str) -> Result<Next<'a>, AllocError>
    ensures { IfOk result (λ after. (words : List (List ℕ)) →
        read_on (shown parts.old) next.entry (word.now ∷ words) ≡ read_on (shown parts.new) after words) }
{
    match next {
        Next::Any => take_any(parts, word),
        Next::Value(name) => {
            parts.add_option(name, word)?;
            Ok(Next::Any)
        }
        Next::Rest => {
            parts.add_rest(word)?;
            Ok(Next::Rest)
        }
    }
}

/// The parts of the words; `None` exactly where the last of them is an option that wants a value.
pub fn parts_of<'a>(alloc: Global, words: &'a [String]) -> Result<Option<Parts<'a>>, AllocError>
    ensures { IfOk result (λ parts. option_map shown parts ≡ parts_of (texts_of words.now)) }
{
    let mut parts = Parts {
        options: Vec::new(alloc),
        rest: Vec::new(alloc),
    };
    let mut next = Next::Any;
    for word in words {
        next = take(&mut parts, next, word.as_str())?;
    }
    match next {
        Next::Value(_) => Ok(None),
        _ => Ok(Some(parts)),
    }
}
