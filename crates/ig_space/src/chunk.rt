ghost use Rattle.std.specs.Prelude.{◌≡◌, ◌≢◌, ◌<◌, ◌≤◌, ◌^◌, ◌↔◌, ◌++◌, ◌∷◌, IfOk, IfSome, IsNone, IsTrue, length, string_bytes, true, ℕ};
ghost use Rattle.std.specs.Fmt.{decimal};
ghost use Rattle.ig_space.specs.Path.{is_segment};
ghost use Rattle.ig_space.specs.Grid.{IsBox};
ghost use Rattle.ig_space.specs.Chunk.{begins_with_digit, chunk_name as chunk_name_of, is_plain, lacks, span_text};
ghost use Rattle.ig_space.specs.declared.point.Box3.{Box3};

use crate::geometry::LARGEST_PLACE;
use crate::{Box3, Path, Point};
use std::alloc::{AllocError, Global};

/// The text of the name of the chunk with this box.
fn chunk_text(alloc: Global, area: Box3) -> Result<String, AllocError>
    ensures { IfOk result (λ text. string_bytes text ≡ chunk_name_of area) }
{
    let (lo, hi) = (area.lo, area.hi);
    format!(in alloc; "{}-{}_{}-{}_{}-{}", lo.x, hi.x, lo.y, hi.y, lo.z, hi.z)
}

/// The name of the file of the chunk with this box: `<x0>-<x1>_<y0>-<y1>_<z0>-<z1>`, as the Neuroglancer precomputed
/// volume format has it.
pub fn chunk_name(alloc: Global, area: Box3) -> Result<Path, AllocError>
    requires { IsBox area }
    ensures name { IfOk result (λ path. path ≡ chunk_name_of area) }
    ensures short { IfOk result (λ path. length path ≤ 83) }
    ensures segment { IfOk result (λ path. is_segment path ≡ true) }
    ensures digit { IfOk result (λ path. begins_with_digit path ≡ true) }
{
    Ok(Path::of_string(chunk_text(alloc, area)?))
}

/// Whether a text begins with neither a plus nor a zero before other bytes.
fn is_plain(text: &[u8]) -> bool
    ensures { result ≡ is_plain text.now }
{
    match text {
        [] => false,
        [first] => *first != b'+',
        [first, ..] => *first != b'+' && *first != b'0',
    }
}

/// The number that the text writes in decimal, without leading zeros.
fn parse_decimal(text: &str) -> Option<u64>
    ensures some { IfSome result (λ n. text.now ≡ decimal n) }
    ensures none { IsNone result → (n : ℕ) → n < 2 ^ 64 → text.now ≢ decimal n }
{
    if !is_plain(text.as_bytes()) {
        return None;
    }
    text.parse().ok()
}

/// What stands before and after the first such character.
fn cut(text: &str, mark: char) -> Option<(&str, &str)>
    requires { mark < 128 }
    ensures whole { IfSome result (λ parts. text.now ≡ parts.0.now ++ mark ∷ parts.1.now) }
    ensures first { IfSome result (λ parts. lacks mark parts.0.now ≡ true) }
    ensures none { IsNone result → lacks mark text.now ≡ true }
{
    text.split_once(mark)
}

/// The two numbers of `<lo>-<hi>`.
fn parse_span(text: &str) -> Option<(u64, u64)>
    ensures some { IfSome result (λ span. text.now ≡ span_text span.0 span.1) }
    ensures none { IsNone result → (lo hi : ℕ) → lo < 2 ^ 64 → hi < 2 ^ 64 → text.now ≢ span_text lo hi }
{
    let (lo, hi) = cut(text, '-')?;
    Some((parse_decimal(lo)?, parse_decimal(hi)?))
}

/// The numbers of a text that is written as a chunk's name.
fn parse_spans(text: &str) -> Option<Box3>
    ensures some { IfSome result (λ area. text.now ≡ chunk_name_of area) }
    ensures none { IsNone result → (area : Box3) → IsBox area → text.now ≢ chunk_name_of area }
{
    let (x, rest) = cut(text, '_')?;
    let (y, z) = cut(rest, '_')?;
    let (x, y, z) = (parse_span(x)?, parse_span(y)?, parse_span(z)?);
    Some(Box3 {
        lo: Point {
            x: x.0,
            y: y.0,
            z: z.0,
        },
        hi: Point {
            x: x.1,
            y: y.1,
            z: z.1,
        },
    })
}

/// Whether the box has an inside and ends within the largest place.
fn is_box(area: Box3) -> bool
    ensures { IsTrue result ↔ IsBox area }
{
    let (lo, hi) = (area.lo, area.hi);
    lo.x < hi.x
        && lo.y < hi.y
        && lo.z < hi.z
        && hi.x <= LARGEST_PLACE
        && hi.y <= LARGEST_PLACE
        && hi.z <= LARGEST_PLACE
}

/// The box of the chunk with this name; `None` exactly where no box has it.
pub fn parse_chunk_name(text: &str) -> Option<Box3>
    ensures some { IfSome result (λ area. IsBox area × (text.now ≡ chunk_name_of area)) }
    ensures back { (area : Box3) → IsBox area → text.now ≡ chunk_name_of area → IfSome result (λ found. found ≡ area) }
    ensures none { IsNone result → (area : Box3) → IsBox area → text.now ≢ chunk_name_of area }
{
    let area = parse_spans(text)?;
    if is_box(area) { Some(area) } else { None }
}
