// Rows of generated matrices.
ghost use Rattle.std.specs.Prelude.{◌≤◌, length};
ghost use Rattle.row_model.specs.declared.TheConstants.{MAX_COLUMNS, MAX_ROWS};

use pq_cli::generate;
use pq_io::NoMemory;
use std::alloc::Global;
use std::test::Fail;

// Whether the drawn matrix has these rows.
fn is_drawn(alloc: Global, seed: u64, columns: u32, rows: &[&[u32]]) -> Result<bool, NoMemory>
    requires columns { (1 ≤ columns) × (columns ≤ MAX_COLUMNS) }
    requires rows { length rows.now ≤ MAX_ROWS }
{
    let matrix = generate(alloc, seed, columns, rows.len() as u32)?;
    if matrix.rows() as usize != rows.len() {
        return Ok(false);
    }
    for before in 0..matrix.rows() {
        if matrix.row(before + 1) != rows[before as usize] {
            return Ok(false);
        }
    }
    Ok(true)
}

// The rows are those that a script of its own has drawn. They fix the first ten draws of each number, and more.
#[test]
fn the_rows_of_generated_matrices(rt: HostRuntime) -> Result<(), Fail> {
    assert!(rt; is_drawn(rt.alloc(), 0, 3, &[&[1], &[3], &[3], &[2]])?);
    assert!(rt;
        is_drawn(
            rt.alloc(),
            7,
            6,
            &[&[2, 3], &[1, 4], &[2, 4, 5, 6], &[5, 6]]
        )?
    );
    assert!(rt;
        is_drawn(
            rt.alloc(),
            u64::MAX,
            5,
            &[&[2, 4, 5], &[1, 2, 3], &[1, 2, 3]]
        )?
    );
    Ok(())
}
