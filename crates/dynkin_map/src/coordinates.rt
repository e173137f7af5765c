//! The coordinates of a logarithm from the images of words.
ghost use Rattle.std.specs.Prelude.{◌≡◌, ◌≤◌, ◌<◌, suc, pos, map, length, EachIndex, IfOk, slice_index_or, unsigned_abs};
ghost use Rattle.definitions.specs.Words.{IsShape};
ghost use Rattle.definitions.specs.Signature.{limit, Fits};
ghost use Rattle.definitions.specs.Hall.{hall_list};
ghost use Rattle.scaled_tensor.specs.Tensors.{coefficient};
ghost use Rattle.dynkin_map.specs.Coordinates.{coordinate, coordinates, lie_bounds};
ghost use Rattle.definitions.specs.AllWords.{words_below};
ghost use Rattle.dynkin_map.specs.Table.{row_of};

use crate::rows::Rows;
use crate::sums::add_rows;
use lie_bracket::LieElement;
use scaled_tensor::LogTensor;
use std::alloc::Global;
use words::Memory;

/// The coordinates by number in place of zeros, where the weight fits.
fn write_coordinates(sums: &mut [i128], rows: &Rows, p: &LogTensor)
    requires len { length sums.old ≡ length (hall_list p.now.tensor.extent.width p.now.tensor.extent.depth) }
    requires zeros { EachIndex sums.old (λ h. slice_index_or sums.old h (pos 0) ≡ pos 0) }
    requires rows { rows.now ≡ map (row_of p.now.tensor.extent) (words_below p.now.tensor.extent.width (suc p.now.tensor.extent.depth)) }
    requires fits { Fits (lie_bounds p.now.tensor.extent) p.now.weight }
    ensures range { EachIndex sums.new (λ h. unsigned_abs (slice_index_or sums.new h (pos 0)) ≤ limit) }
    ensures value { EachIndex sums.new (λ h. slice_index_or sums.new h (pos 0) ≡ coordinate p.now.tensor.extent.width p.now.tensor.extent.depth (hall_list p.now.tensor.extent.width p.now.tensor.extent.depth) (coefficient p.now.tensor) (suc h)) }
{
    let tensor = p.tensor();
    let shape = tensor.shape();
    for k in 0..shape.depth() + 1 {
        add_rows(sums, tensor.level(k), rows, shape.before(k) as usize);
    }
}

/// The element of the coordinates, where the weight fits.
pub(crate) fn coordinate_element(
    alloc: Global,
    members: u32,
    rows: &Rows,
    p: &LogTensor,
) -> Result<LieElement, Memory>
    requires members { members ≡ length (hall_list p.now.tensor.extent.width p.now.tensor.extent.depth) }
    requires few { members ≤ 1024 }
    requires rows { rows.now ≡ map (row_of p.now.tensor.extent) (words_below p.now.tensor.extent.width (suc p.now.tensor.extent.depth)) }
    requires fits { Fits (lie_bounds p.now.tensor.extent) p.now.weight }
    ensures { IfOk result (λ z. z ≡ coordinates p.now.tensor.extent (coefficient p.now.tensor)) }
{
    let mut sums = vec![in alloc; 0i128; members as usize]?;
    write_coordinates(&mut sums, rows, p);
    LieElement::from_sums(alloc, &sums)
}
