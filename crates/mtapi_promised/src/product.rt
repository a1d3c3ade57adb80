//! The product of two matrices, by blocks of rows.

ghost use Rattle.std.specs.Prelude.{◌≡◌, IfOk, length, vec_len};
ghost use Rattle.std.specs.List.{AllZip};

use mtapi_values::NodeAttr;
use std::alloc::{AllocError, Global};
use std::sync::Wait;
use std::thread::Threads;
use typed_pieces::{Unfinished, map_pieces};

/// How many rows and columns a matrix has.
pub const SIZE: usize = 96;

/// A row of a matrix.
pub type Row = [i64; SIZE];

/// A matrix whose numbers follow from this one.
pub fn matrix(alloc: Global, seed: i64) -> Result<Vec<Row>, AllocError> {
    let row_at = |row: i64| {
        let mut cells = [0i64; SIZE];
        for (column, cell) in (1i64..).zip(&mut cells) {
            *cell = column.wrapping_mul(seed.wrapping_add(row)) >> 3;
        }
        cells
    };
    (0..SIZE as i64).map(row_at).collect(alloc)
}

/// This row of the product of its matrix and the right one.
pub fn row_of(row: &Row, right: &[Row]) -> Row {
    let mut sums = [0i64; SIZE];
    for (factor, line) in row.iter().zip(right) {
        for (sum, cell) in sums.iter_mut().zip(line) {
            *sum = sum.wrapping_add(factor.wrapping_mul(*cell));
        }
    }
    sums
}

/// The rows of the product, block by block: each block has as many as that of the left matrix at its place.
pub fn product_of<R: Threads + Wait + Sync>(
    rt: &R,
    alloc: Global,
    blocks: Vec<&[Row]>,
    right: &[Row],
) -> Result<Vec<Result<Vec<Row>, AllocError>>, Unfinished>
    ensures { IfOk result (λ product. AllZip (λ rows block. IfOk block (λ b. vec_len b ≡ length rows.now)) blocks.entry.items product.items) }
{
    let multiply = |rows: &[Row]| -> Result<Vec<Row>, AllocError>
        ensures { IfOk result (λ v. vec_len v ≡ length rows.now) }
    { rows.iter().map(|row| row_of(row, right)).collect(alloc) };
    Ok(map_pieces(rt, alloc, NodeAttr::new(), blocks, &multiply)?.results)
}
