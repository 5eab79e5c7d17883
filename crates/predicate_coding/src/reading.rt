ghost use Rattle.std.specs.Prelude.{◌≡◌, ◌++◌, ◌∷◌, [], filter, OnOk, IfOk};
ghost use Rattle.predicate_coding.specs.Asking.{reads_file};

use crate::asked::Asked;
use crate::choices::reads_file;
use fer_list::Seq;
use std::alloc::{AllocError, Global};
use value_coding::CodedCell;

fn copy_cell(alloc: Global, c: &CodedCell) -> Result<CodedCell, AllocError>
    ensures { IfOk result (λ copy. copy ≡ c.now) }
{
    let writers = Seq::from_slice(alloc, c.writers.as_slice())?;
    Ok(CodedCell {
        cell: c.cell,
        first: c.first,
        writers,
    })
}

// Adds the cell, if the atom reads such a cell of its file.
fn push_read_cell(
    alloc: Global,
    read: &mut Vec<CodedCell>,
    asked: &Asked,
    c: &CodedCell,
) -> Result<(), AllocError>
    ensures { OnOk result (read.new.items ≡ read.old.items ++ filter (λ c. reads_file asked.now c.cell) (c.now ∷ [])) }
{
    if reads_file(asked, c.cell) {
        let copy = copy_cell(alloc, c)?;
        read.push(copy)?;
    }
    Ok(())
}

/// The cells that the atom reads, of all files.
pub fn read_cells(
    alloc: Global,
    cells: &[CodedCell],
    asked: &Asked,
) -> Result<Vec<CodedCell>, AllocError>
    ensures { IfOk result (λ read. read.items ≡ filter (λ c. reads_file asked.now c.cell) cells.now) }
{
    let mut read = Vec::new(alloc);
    for c in cells {
        push_read_cell(alloc, &mut read, asked, c)?;
    }
    Ok(read)
}
