//! The words of a command: `image xfer SRC DEST [--mip N] [--chunk-size X,Y,Z] [--shape X,Y,Z]
//! [--encoding E] [--block-size X,Y,Z] [--queue fq://PATH]`,
//! `image downsample SRC [--mip N] [--num-mips M] [--shape X,Y,Z] [--queue fq://PATH]`, and
//! `image voxels count SRC --queue fq://PATH [--mip N] [--shape X,Y,Z]`.
ghost use Rattle.std.specs.Prelude.{◌≡◌, ◌≢◌, ◌≤◌, IfOk, IfSome, List, Option, ℕ, codes, map, option_map, true, false};
ghost use Rattle.ig_record.specs.declared.stage.Kind.TheVariants.{Downsample, Remove};
ghost use Rattle.ig_record.specs.Sound.{has_come};
ghost use Rattle.std.specs.List.{list_all};
ghost use Rattle.ig_space.specs.Path.{is_path};
ghost use Rattle.ig_meaning.specs.Options.{is_short_path, number_in, value_or, values_of};
ghost use Rattle.ig_meaning.specs.QueueWords.{is_apart};
ghost use Rattle.ig_meaning.specs.Words.{are_apart, are_layers, coding_given, coding_of, command_as, command_in, command_of, command_with, image_command, is_dest_apart, is_option, levels_given, request_between, request_in, request_of, runs_alone, sides_given, voxels_command, writes_layer};
ghost use Rattle.ig_stage.specs.Requests.{HasLimits, HasSides, shown_coding, shown_request};
ghost use Rattle.ig_cli.specs.Options.{both, text_of};
ghost use Rattle.ig_cli.specs.Parts.{shown};
ghost use Rattle.ig_cli.specs.Words.{HasSizes, IsLawful, request_with, shown_command, texts_of};

use crate::options::{Parts, is_short_path, number_or, parts_of, sides_of, value_of};
use crate::queue_words::{is_apart, queue_given};
use ig_record::Kind;
use ig_space::{Path, Point};
use ig_stage::{Coding, Request};
use std::alloc::{AllocError, Global};

/// What the words of a command ask for.
#[derive(Debug, Drop)]
pub enum Command {
    /// A stage that the command runs itself.
    Local(Request),
    /// A stage that is put into the queue in this directory.
    Enqueue { queue: Path, request: Request },
}

/// What the options of a command give.
#[derive(Clone, Copy)]
struct Sizes {
    mip: u32,
    levels: u32,
    chunk: Option<Point>,
    shape: Option<Point>,
    encoding: Option<Coding>,
    block: Option<Point>,
}

/// The largest number of a scale.
const LARGEST_MIP: u64 = 99;

/// The most mips that a command adds.
const MOST_LEVELS: u64 = 5;

/// Whether the words may name a layer and a new one.
fn are_layer_words(source: &str, dest: &str) -> bool
    ensures { result ≡ are_layers source.now dest.now }
{
    is_short_path(source) && is_short_path(dest) && source != dest
}

/// The path of a word that is one.
pub fn path_of(alloc: Global, word: &str) -> Result<Path, AllocError>
    requires { is_path word.now ≡ true }
    ensures { IfOk result (λ path. path ≡ word.now) }
{
    let path = Path::new(alloc, word)?;
    Ok(path.unwrap())
}

/// Whether the command for this kind has an option with this name.
fn is_option(kind: Kind, name: &str) -> bool
    ensures { result ≡ is_option kind name.now }
{
    match kind {
        Kind::Xfer => {
            name == "--mip"
                || name == "--chunk-size"
                || name == "--shape"
                || name == "--encoding"
                || name == "--block-size"
                || name == "--queue"
        }
        Kind::Downsample => {
            name == "--mip" || name == "--num-mips" || name == "--shape" || name == "--queue"
        }
        Kind::Count => name == "--mip" || name == "--shape" || name == "--queue",
        Kind::Faces | Kind::Links | Kind::Labels => false,
        Kind::Relabel | Kind::Sum | Kind::Remove => false,
    }
}

/// Whether the command for this kind has options with these names.
fn are_options(kind: Kind, options: &[(&str, &str)]) -> bool
    ensures { result ≡ list_all (λ option. is_option kind option.0) (map both options.now) }
{
    options.iter().all(|option| is_option(kind, option.0))
}

/// Whether the command for this kind may run the stage itself.
fn runs_alone(kind: Kind) -> bool
    ensures { result ≡ runs_alone kind }
{
    match kind {
        Kind::Xfer | Kind::Downsample => true,
        Kind::Faces | Kind::Links | Kind::Labels => false,
        Kind::Relabel | Kind::Count | Kind::Sum | Kind::Remove => false,
    }
}

/// Whether stages of this kind write a new layer.
fn writes_layer(kind: Kind) -> bool
    ensures { result ≡ writes_layer kind }
{
    match kind {
        Kind::Xfer | Kind::Relabel => true,
        Kind::Downsample | Kind::Faces | Kind::Links | Kind::Labels => false,
        Kind::Count | Kind::Sum | Kind::Remove => false,
    }
}

/// The number of the scale, 0 where no option gives it.
fn mip_of(options: &[(&str, &str)]) -> Option<u32>
    ensures value { result ≡ value_or 0 (number_in 0 99) (values_of (codes "--mip") (map both options.now)) }
    ensures limit { IfSome result (λ mip. mip ≤ 99) }
{
    Some(number_or(options, "--mip", 0, 0, LARGEST_MIP)? as u32)
}

/// How many mips a stage of this kind adds: as the option gives, and 1 where none does; of a kind that adds none, 0.
fn levels_of(kind: Kind, options: &[(&str, &str)]) -> Option<u32>
    ensures value { result ≡ levels_given kind (values_of (codes "--num-mips") (map both options.now)) }
    ensures few { IfSome result (λ levels. levels ≤ 5) }
    ensures some { IfSome result (λ levels. kind ≡ Downsample → 1 ≤ levels) }
{
    match kind {
        Kind::Downsample => Some(number_or(options, "--num-mips", 1, 1, MOST_LEVELS)? as u32),
        Kind::Xfer | Kind::Faces | Kind::Links | Kind::Labels => Some(0),
        Kind::Relabel | Kind::Count | Kind::Sum | Kind::Remove => Some(0),
    }
}

/// The sides that the option with this name gives, where it is given.
fn sides_given(options: &[(&str, &str)], name: &str) -> Option<Option<Point>>
    ensures value { result ≡ sides_given (values_of name.now (map both options.now)) }
    ensures sides { IfSome result (λ sides. IfSome sides HasSides) }
{
    match value_of(options, name)? {
        Some(text) => Some(Some(sides_of(text)?)),
        None => Some(None),
    }
}

/// The encoding that a word names.
fn coding_of(text: &str) -> Option<Coding>
    ensures { option_map shown_coding result ≡ coding_of text.now }
{
    if text == "raw" {
        Some(Coding::Raw)
    } else if text == "compressed_segmentation" {
        Some(Coding::Cseg)
    } else {
        None
    }
}

/// The encoding that an option gives, where it is given.
fn coding_given(options: &[(&str, &str)]) -> Option<Option<Coding>>
    ensures { option_map (option_map shown_coding) result ≡ coding_given (values_of (codes "--encoding") (map both options.now)) }
{
    match value_of(options, "--encoding")? {
        Some(text) => Some(Some(coding_of(text)?)),
        None => Some(None),
    }
}

/// What these options give a stage of this kind; `None` exactly where one of them is given twice or has a faulty value.
#[tactic(auto, unfolding(ig_meaning::specs::Words::request_of))]
fn sizes_of(kind: Kind, options: &[(&str, &str)]) -> Option<Sizes>
    ensures value { (source : List ℕ) (dest : Option (List ℕ)) → option_map (request_with kind source dest) result ≡ request_of kind (map both options.now) source dest }
    ensures limits { IfSome result (HasSizes kind) }
{
    Some(Sizes {
        mip: mip_of(options)?,
        levels: levels_of(kind, options)?,
        chunk: sides_given(options, "--chunk-size")?,
        shape: sides_given(options, "--shape")?,
        encoding: coding_given(options)?,
        block: sides_given(options, "--block-size")?,
    })
}

/// The request for a stage of this kind, with these layers and sizes.
fn request_of(kind: Kind, source: Path, dest: Option<Path>, sizes: Sizes) -> Request
    ensures { shown_request result ≡ request_with kind source dest sizes }
{
    Request {
        kind,
        source,
        dest,
        mip: sizes.mip,
        levels: sizes.levels,
        chunk: sizes.chunk,
        shape: sizes.shape,
        encoding: sizes.encoding,
        block: sizes.block,
    }
}

/// SRC DEST, and these options.
fn with_new_layer(alloc: Global, kind: Kind, parts: &Parts) -> Result<Option<Request>, AllocError>
    requires come { has_come kind ≡ true }
    requires makes { kind ≢ Remove }
    ensures value { IfOk result (λ request. option_map shown_request request ≡ request_between true kind (shown parts.now).options (shown parts.now).rest) }
    ensures limits { IfOk result (λ request. IfSome request HasLimits) }
{
    let [source, dest] = parts.rest.as_slice() else {
        return Ok(None);
    };
    if !are_layer_words(source, dest) {
        return Ok(None);
    }
    let Some(sizes) = sizes_of(kind, &parts.options) else {
        return Ok(None);
    };
    let dest = path_of(alloc, dest)?;
    Ok(Some(request_of(kind, path_of(alloc, source)?, Some(dest), sizes)))
}

/// SRC, and these options.
fn with_source(alloc: Global, kind: Kind, parts: &Parts) -> Result<Option<Request>, AllocError>
    requires come { has_come kind ≡ true }
    requires makes { kind ≢ Remove }
    requires none { writes_layer kind ≡ false }
    ensures value { IfOk result (λ request. option_map shown_request request ≡ request_between false kind (shown parts.now).options (shown parts.now).rest) }
    ensures limits { IfOk result (λ request. IfSome request HasLimits) }
{
    let [source] = parts.rest.as_slice() else {
        return Ok(None);
    };
    if !is_short_path(source) {
        return Ok(None);
    }
    let Some(sizes) = sizes_of(kind, &parts.options) else {
        return Ok(None);
    };
    Ok(Some(request_of(kind, path_of(alloc, source)?, None, sizes)))
}

/// The stage of this kind that these parts of words ask for.
fn request_in(alloc: Global, kind: Kind, parts: &Parts) -> Result<Option<Request>, AllocError>
    requires come { has_come kind ≡ true }
    requires makes { kind ≢ Remove }
    ensures value { IfOk result (λ request. option_map shown_request request ≡ request_in kind (shown parts.now)) }
    ensures limits { IfOk result (λ request. IfSome request HasLimits) }
{
    if !are_options(kind, &parts.options) {
        return Ok(None);
    }
    if writes_layer(kind) {
        with_new_layer(alloc, kind, parts)
    } else {
        with_source(alloc, kind, parts)
    }
}

/// Whether the new layer, if there is one, lies apart from the queue.
fn is_dest_apart(queue: &str, dest: &Option<Path>) -> bool
    ensures { result ≡ is_dest_apart queue.now dest.now }
{
    match dest {
        Some(dest) => is_apart(queue, dest.as_str()),
        None => true,
    }
}

/// Whether the layers of a request lie apart from the queue.
fn are_apart(queue: &str, request: &Request) -> bool
    ensures { result ≡ are_apart queue.now (shown_request request.now) }
{
    is_apart(queue, request.source.as_str()) && is_dest_apart(queue, &request.dest)
}

/// The stage, run by the command itself, if it may, or put into the queue that is given; `None` exactly where it may not, or a
/// layer lies in that queue, or the other way round.
fn command_with(
    alloc: Global,
    alone: bool,
    queue: Option<&str>,
    request: Request,
) -> Result<Option<Command>, AllocError>
    requires queue { IfSome queue (λ path. is_short_path path.now ≡ true) }
    requires limits { HasLimits request }
    ensures value { IfOk result (λ command. option_map shown_command command ≡ command_with alone (option_map text_of queue.entry) (shown_request request)) }
    ensures lawful { IfOk result (λ command. IfSome command IsLawful) }
{
    let Some(queue) = queue else {
        return Ok(if alone {
            Some(Command::Local(request))
        } else {
            None
        });
    };
    if !are_apart(queue, &request) {
        return Ok(None);
    }
    let queue = path_of(alloc, queue)?;
    Ok(Some(Command::Enqueue { queue, request }))
}

/// What these parts of the words after those that name a kind ask for.
fn command_in(alloc: Global, kind: Kind, parts: &Parts) -> Result<Option<Command>, AllocError>
    requires come { has_come kind ≡ true }
    requires makes { kind ≢ Remove }
    ensures value { IfOk result (λ command. option_map shown_command command ≡ command_in kind (shown parts.now)) }
    ensures lawful { IfOk result (λ command. IfSome command IsLawful) }
{
    let Some(queue) = queue_given(&parts.options) else {
        return Ok(None);
    };
    let Some(request) = request_in(alloc, kind, parts)? else {
        return Ok(None);
    };
    command_with(alloc, runs_alone(kind), queue, request)
}

/// What the words after those that name a kind ask for.
fn command_as(alloc: Global, kind: Kind, words: &[String]) -> Result<Option<Command>, AllocError>
    requires come { has_come kind ≡ true }
    requires makes { kind ≢ Remove }
    ensures value { IfOk result (λ command. option_map shown_command command ≡ command_as kind (texts_of words.now)) }
    ensures lawful { IfOk result (λ command. IfSome command IsLawful) }
{
    let Some(parts) = parts_of(alloc, words)? else {
        return Ok(None);
    };
    command_in(alloc, kind, &parts)
}

/// What the words after `image voxels` ask for.
fn voxels_command(alloc: Global, words: &[String]) -> Result<Option<Command>, AllocError>
    ensures value { IfOk result (λ command. option_map shown_command command ≡ voxels_command (texts_of words.now)) }
    ensures lawful { IfOk result (λ command. IfSome command IsLawful) }
{
    let [first, words @ ..] = words else {
        return Ok(None);
    };
    if first.as_str() == "count" {
        command_as(alloc, Kind::Count, words)
    } else {
        Ok(None)
    }
}

/// What the words after `image` ask for.
fn image_command(alloc: Global, words: &[String]) -> Result<Option<Command>, AllocError>
    ensures value { IfOk result (λ command. option_map shown_command command ≡ image_command (texts_of words.now)) }
    ensures lawful { IfOk result (λ command. IfSome command IsLawful) }
{
    let [first, words @ ..] = words else {
        return Ok(None);
    };
    if first.as_str() == "xfer" {
        command_as(alloc, Kind::Xfer, words)
    } else if first.as_str() == "downsample" {
        command_as(alloc, Kind::Downsample, words)
    } else if first.as_str() == "voxels" {
        voxels_command(alloc, words)
    } else {
        Ok(None)
    }
}

/// What the words ask for; `None` exactly where they are no command's words.
pub fn read_words(alloc: Global, words: &Vec<String>) -> Result<Option<Command>, AllocError>
    ensures value { IfOk result (λ command. option_map shown_command command ≡ command_of (texts_of words.now.items)) }
    ensures lawful { IfOk result (λ command. IfSome command IsLawful) }
{
    let [first, words @ ..] = words.as_slice() else {
        return Ok(None);
    };
    if first.as_str() == "image" {
        image_command(alloc, words)
    } else {
        Ok(None)
    }
}
