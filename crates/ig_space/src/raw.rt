ghost use Rattle.std.specs.Prelude.{◌≡◌, ◌≤◌, ◌<◌, ◌↔◌, ◌+◌, ◌*◌, ◌^◌, IfOk, IsOk, IfErr, OnOk, OnErr, IsNone, IfSome, length, drop, flat_map, slice_index, ℕ};
ghost use Rattle.std.specs.Int.{bytes_low_first};
ghost use Rattle.byteorder.specs.Endian.{little_number};
ghost use Rattle.ig_space.specs.Geometry.{count, label_len};
ghost use Rattle.ig_space.specs.Raw.{raw_text, AllFit, IsFirstTooWide};
ghost use Rattle.ig_space.specs.RawError.{Explains};

use crate::{Bytes, Volume, Width};
use byteorder::{ByteOrder, LittleEndian};
use std::alloc::{AllocError, Global};
use thiserror::Error;

/// Why a volume has no raw text.
#[derive(Clone, Copy, Debug, PartialEq, Eq, Error)]
pub enum RawError {
    #[error("label {index} is too wide")]
    ValueTooWide { index: u64 },
    #[error("out of memory")]
    Memory,
}

/// Bytes that are not as long as the raw text of a volume.
#[derive(Clone, Copy, Debug, PartialEq, Eq, Error)]
#[error("{got} bytes, not {want}")]
pub struct WrongLength {
    pub got: u64,
    pub want: u64,
}

/// How many bytes a label has.
pub fn bytes_each(width: Width) -> usize
    ensures value { result ≡ label_len width }
    ensures some { 1 ≤ result }
    ensures few { result ≤ 8 }
{
    match width {
        Width::W8 => 1,
        Width::W16 => 2,
        Width::W32 => 4,
        Width::W64 => 8,
    }
}

/// The greatest label of the width.
fn largest_label(width: Width) -> u64
    ensures { result + 1 ≡ 256 ^ label_len width }
{
    match width {
        Width::W8 => u64::from(u8::MAX),
        Width::W16 => u64::from(u16::MAX),
        Width::W32 => u64::from(u32::MAX),
        Width::W64 => u64::MAX,
    }
}

/// Where the first label stands that doesn't fit the width.
pub fn first_too_wide(labels: &[u64], width: Width) -> Option<usize>
    ensures fit { IsNone result → AllFit width labels.now }
    ensures wide { IfSome result (IsFirstTooWide width labels.now) }
{
    let largest = largest_label(width);
    labels.iter().position(|label| *label > largest)
}

/// Writes the labels in N bytes each, the lowest first.
fn write_each<const N: usize>(labels: &[u64], text: &mut [u8])
    requires some { 1 ≤ N }
    requires few { N ≤ 8 }
    requires room { length text.old ≡ N * length labels.now }
    requires fit { (k : ℕ) → k < length labels.now → slice_index labels.now k < 256 ^ N }
    ensures { text.new ≡ flat_map (bytes_low_first 0 N) labels.now }
{
    for (place, label) in labels.iter().enumerate() {
        LittleEndian::write_uint(&mut text[N * place..], *label, N);
    }
}

/// Reads the labels from N bytes each, the lowest first.
fn read_each<const N: usize>(text: &[u8], labels: &mut [u64])
    requires some { 1 ≤ N }
    requires few { N ≤ 8 }
    requires room { length text.now ≡ N * length labels.old }
    ensures length { length labels.new ≡ length labels.old }
    ensures text { flat_map (bytes_low_first 0 N) labels.new ≡ text.now }
    ensures each { (k : ℕ) → k < length labels.new → slice_index labels.new k ≡ little_number N (drop (N * k) text.now) }
{
    for place in 0..labels.len() {
        labels[place] = LittleEndian::read_uint(&text[N * place..], N);
    }
}

/// Writes the labels, which fit the width, into a text that is as long as their raw text.
pub fn write_labels(labels: &[u64], width: Width, text: &mut [u8])
    requires room { length text.old ≡ label_len width * length labels.now }
    requires fit { AllFit width labels.now }
    ensures { text.new ≡ raw_text width labels.now }
{
    match width {
        Width::W8 => write_each::<1>(labels, text),
        Width::W16 => write_each::<2>(labels, text),
        Width::W32 => write_each::<4>(labels, text),
        Width::W64 => write_each::<8>(labels, text),
    }
}

/// Reads the labels from a raw text that is as long as theirs.
pub fn read_labels(text: &[u8], width: Width, labels: &mut [u64])
    requires { length text.now ≡ label_len width * length labels.old }
    ensures length { length labels.new ≡ length labels.old }
    ensures text { raw_text width labels.new ≡ text.now }
    ensures fit { AllFit width labels.new }
    ensures each { (k : ℕ) → k < length labels.new → slice_index labels.new k ≡ little_number (label_len width) (drop (label_len width * k) text.now) }
{
    match width {
        Width::W8 => read_each::<1>(text, labels),
        Width::W16 => read_each::<2>(text, labels),
        Width::W32 => read_each::<4>(text, labels),
        Width::W64 => read_each::<8>(text, labels),
    }
}

/// The raw text of the labels, which fit the width.
fn text_of(alloc: Global, labels: &[u64], width: Width) -> Result<Vec<u8>, AllocError>
    requires few { length labels.now ≤ 2 ^ 24 }
    requires fit { AllFit width labels.now }
    ensures { IfOk result (λ text. text.items ≡ raw_text width labels.now) }
{
    let mut text = vec![in alloc; 0; labels.len() * bytes_each(width)]?;
    write_labels(labels, width, &mut text);
    Ok(text)
}

/// The labels of the volume, each in the bytes of the width with the lowest first (Neuroglancer precomputed volume
/// format, "raw" encoding).
pub fn raw_encode(alloc: Global, volume: &Volume, width: Width) -> Result<Bytes, RawError>
    ensures text { IfOk result (λ bytes. bytes ≡ raw_text width volume.now.labels) }
    ensures fit { OnOk result (AllFit width volume.now.labels) }
    ensures length { IfOk result (λ bytes. length bytes ≡ label_len width * count volume.now.size) }
    ensures each { IfOk result (λ bytes. (k : ℕ) → k < length volume.now.labels → slice_index volume.now.labels k ≡ little_number (label_len width) (drop (label_len width * k) bytes)) }
    ensures refusal { IfErr result (λ e. Explains width volume.now.labels e) }
{
    if let Some(index) = first_too_wide(volume.labels(), width) {
        return Err(RawError::ValueTooWide {
            index: index as u64,
        });
    }
    match text_of(alloc, volume.labels(), width) {
        Ok(text) => Ok(Bytes::from_vec(text)),
        Err(_) => Err(RawError::Memory),
    }
}

/// Puts the labels of a raw text into the volume, where the text has as many as the volume.
pub fn raw_decode(bytes: &[u8], width: Width, out: &mut Volume) -> Result<(), WrongLength>
    ensures ok { IsOk result ↔ (length bytes.now ≡ label_len width * count out.old.size) }
    ensures size { out.new.size ≡ out.old.size }
    ensures text { OnOk result (raw_text width out.new.labels ≡ bytes.now) }
    ensures fit { OnOk result (AllFit width out.new.labels) }
    ensures each { OnOk result ((k : ℕ) → k < length out.new.labels → slice_index out.new.labels k ≡ little_number (label_len width) (drop (label_len width * k) bytes.now)) }
    ensures wrong { IfErr result (λ e. e ≡ record { got = length bytes.now; want = label_len width * count out.old.size }) }
    ensures unchanged { OnErr result (out.new ≡ out.old) }
{
    let want = bytes_each(width) * out.labels().len();
    if bytes.len() != want {
        return Err(WrongLength {
            got: bytes.len() as u64,
            want: want as u64,
        });
    }
    read_labels(bytes, width, out.labels_mut());
    Ok(())
}
