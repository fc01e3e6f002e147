//! The file of the six planes of a box.
ghost use Rattle.std.specs.Prelude.{ℕ, ◌≡◌, ◌+◌, ◌*◌, ◌<◌, ◌≤◌, ◌^◌, IfOk, IfErr, IfSome, OnOk, None, flat_map, length, map, slice_index, sum};
ghost use Rattle.std.specs.List.{concat};
ghost use Rattle.ig_faces.specs.Explaining.{Explains};
ghost use Rattle.ig_faces.specs.PlanesFile.{IsBox, place_wrong, plane_sizes, planes_in, planes_text, planes_wrong};
ghost use Rattle.ig_faces.specs.Records.{first_wrong, number_in, records_in};
ghost use Rattle.ig_faces.specs.TableFile.{number_text};
ghost use Rattle.ig_space.specs.declared.point.Point.{Point as Sides};

use crate::{FileError, Rule, read_file, write_records};
use ig_space::{Bytes, List, Point};
use std::alloc::{AllocError, Global};

/// The parts of a plane of voxels, the lower axis fastest; 0 is no part.
pub type Plane = List<u32>;

/// The planes of the faces of a box: x low, x high, y low, y high, z low, z high.
pub type Planes = List<Plane>;

/// What must hold of the parts of planes: none is above the greatest.
#[derive(Clone, Copy)]
struct PlaceRule {
    top: u32,
}

impl Rule<u32> for PlaceRule {
    ghost wrong = { λ rule before number. place_wrong rule.top before number };

    fn find_wrong(&self, before: Option<u32>, next: u32) -> Option<usize>
        ensures value { result ≡ place_wrong self.now.top before next }
        ensures within { IfSome result (λ at. at < 4) }
    {
        let _ = before;
        if next <= self.top { None } else { Some(0) }
    }
}

/// How many voxels the planes have.
#[tactic(auto, using(crate::proofs::PlaneLaws::x_bound, crate::proofs::PlaneLaws::y_bound, crate::proofs::PlaneLaws::z_bound))]
fn plane_sizes(size: Point) -> [usize; 6]
    requires { IsBox size }
    ensures sizes { result ≡ plane_sizes size }
    ensures few { sum result ≤ 6 * 2 ^ 24 }
{
    let x = (size.y * size.z) as usize;
    let y = (size.x * size.z) as usize;
    let z = (size.x * size.y) as usize;
    [x, x, y, y, z, z]
}

/// The numbers, cut into planes of these sizes.
fn cut_planes(alloc: Global, numbers: &[u32], sizes: &[usize]) -> Result<Planes, AllocError>
    requires { sum sizes.now ≡ length numbers.now }
    ensures numbers { IfOk result (λ planes. concat planes ≡ numbers.now) }
    ensures sizes { IfOk result (λ planes. map length planes ≡ sizes.now) }
{
    let mut planes = Planes::new(alloc);
    let mut from = 0;
    for size in sizes {
        let to = from + *size;
        planes.push(Plane::from_vec(Vec::from_slice(alloc, &numbers[from..to])?))?;
        from = to;
    }
    Ok(planes)
}

/// The numbers of all planes, one after the other.
fn join_planes(alloc: Global, planes: &[Plane]) -> Result<Vec<u32>, AllocError>
    ensures { IfOk result (λ numbers. numbers.items ≡ concat planes.now) }
{
    let mut numbers = Vec::new(alloc);
    for plane in planes {
        numbers.extend_from_slice(plane.as_slice())?;
    }
    Ok(numbers)
}

/// The numbers in 4 bytes each.
fn write_numbers(alloc: Global, numbers: &[u32]) -> Result<Bytes, AllocError>
    ensures text { IfOk result (λ bytes. bytes ≡ flat_map number_text numbers.now) }
    ensures back { IfOk result (λ bytes. records_in (number_in 4) 4 (length numbers.now) bytes ≡ numbers.now) }
    ensures length { IfOk result (λ bytes. length bytes ≡ 4 * length numbers.now) }
{
    let mut bytes = vec![in alloc; 0; 4 * numbers.len()]?;
    write_records(numbers, &mut bytes);
    Ok(Bytes::from_vec(bytes))
}

/// The file of planes: the parts of each, in 4 bytes with the lowest first, one plane after the other.
pub fn write_planes(alloc: Global, planes: &Planes) -> Result<Bytes, AllocError>
    ensures text { IfOk result (λ bytes. bytes ≡ planes_text planes.now) }
    ensures back { IfOk result (λ bytes. (size : Sides) → map length planes.now ≡ plane_sizes size → planes_in size bytes ≡ concat planes.now) }
    ensures right { IfOk result (λ bytes. (size : Sides) (top : ℕ) → map length planes.now ≡ plane_sizes size → first_wrong (place_wrong top) 4 0 None (concat planes.now) ≡ None → planes_wrong size top bytes ≡ None) }
{
    let numbers = join_planes(alloc, planes.as_slice())?;
    write_numbers(alloc, numbers.as_slice())
}

/// The planes of a box that stand in a file. A wrong file is refused at the byte where the first wrong field begins: at its end where
/// its length isn't that of the planes, at a part above the greatest.
pub fn read_planes(alloc: Global, bytes: &[u8], size: Point, top: u32) -> Result<Planes, FileError>
    requires { IsBox size }
    ensures numbers { IfOk result (λ planes. concat planes ≡ planes_in size bytes.now) }
    ensures sizes { IfOk result (λ planes. map length planes ≡ plane_sizes size) }
    ensures text { IfOk result (λ planes. planes_text planes ≡ bytes.now) }
    ensures each { IfOk result (λ planes. (k : ℕ) → k < length (concat planes) → slice_index (concat planes) k ≤ top) }
    ensures right { OnOk result (planes_wrong size top bytes.now ≡ None) }
    ensures bad { IfErr result (Explains (planes_wrong size top bytes.now)) }
{
    let sizes = plane_sizes(size);
    let all: usize = sizes.iter().sum();
    let numbers = read_file(alloc, bytes, 0, all as u64, &PlaceRule { top })?;
    Ok(cut_planes(alloc, numbers.as_slice(), &sizes)?)
}
