//! The texts of what is wrong with the file of a chunk.
ghost use Rattle.std.specs.Prelude.{◌≡◌, IfOk, string_bytes};
ghost use Rattle.std.specs.Fmt.{decimal};
ghost use Rattle.ig_layer.specs.Faults.{WrongLength};
ghost use Rattle.ig_cutout.specs.Inputs.{cause_of};
ghost use Rattle.ig_meaning.specs.Lines.{cause_text, cseg_text, spaced};

use ig_cseg::CsegFault;
use ig_cutout::Cause;
use std::alloc::{AllocError, Global};

/// A cause at the block with this number.
fn at_block(alloc: Global, cause: &str, block: u64) -> Result<String, AllocError>
    ensures { IfOk result (λ text. string_bytes text ≡ spaced cause.now (decimal block)) }
{
    format!(in alloc; "{cause} {block}")
}

/// What is wrong with a compressed chunk.
fn cseg_text(alloc: Global, fault: &CsegFault) -> Result<String, AllocError>
    ensures { IfOk result (λ text. string_bytes text ≡ cseg_text fault.now) }
{
    match fault {
        CsegFault::NotWords => String::from_str(alloc, "not words"),
        CsegFault::NoChannel => String::from_str(alloc, "no channel"),
        CsegFault::HeaderShort => String::from_str(alloc, "header short"),
        CsegFault::BadBits { block } => at_block(alloc, "bad bits in block", *block),
        CsegFault::ValuesOutside { block } => at_block(alloc, "values outside in block", *block),
        CsegFault::TableOutside { block } => at_block(alloc, "table outside in block", *block),
    }
}

fn wrong_length(alloc: Global, got: u64, want: u64) -> Result<String, AllocError>
    ensures { IfOk result (λ text. string_bytes text ≡ cause_text (WrongLength got want)) }
{
    format!(in alloc; "wrong length {got} want {want}")
}

/// What is wrong with the file of a chunk.
pub fn cause_text(alloc: Global, cause: &Cause) -> Result<String, AllocError>
    ensures { IfOk result (λ text. string_bytes text ≡ cause_text (cause_of cause.now)) }
{
    match cause {
        Cause::Length { got, want } => wrong_length(alloc, *got, *want),
        Cause::Cseg(fault) => cseg_text(alloc, fault),
    }
}
