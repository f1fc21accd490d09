// A table of numbers, row by row.

use crate::{NoMemory, Numbers};
use std::alloc::Global;
use std::marker::Model;

/// Rows of whole numbers, as of flows: one row per flow, and in each row one number per arc. Contracts see the list of the rows.
#[derive(Drop)]
pub struct FlowTable {
    rows: Vec<Vec<i128>>,
}

impl Model for FlowTable {
    ghost use Rattle.std.specs.Prelude.{List, ℤ, map};

    ghost Value = { List (List ℤ) };

    ghost view = { λ t. map (λ row. row.items) t.rows.items };
}

impl FlowTable {
    ghost use Rattle.std.specs.Prelude.{◌≡◌, ◌<◌, ◌++◌, [], ◌∷◌, IfOk, OnErr, length, pos, replicate};
    ghost use Rattle.std.specs.Borrow.{sem};
    ghost use Rattle.pf_frame.specs.Lending.{LendsRow, row_at};

    /// As many rows of zeros, each with `width` numbers.
    pub fn make(alloc: Global, rows: usize, width: usize) -> Result<FlowTable, NoMemory>
        ensures { IfOk result (λ table. table ≡ replicate rows (replicate width (pos 0))) }
    {
        let mut table = Vec::with_capacity(alloc, rows)?;
        'rows: for _i in 0..rows {
            table.push(vec![in alloc; 0; width]?)?;
        }
        Ok(FlowTable { rows: table })
    }

    /// The table without rows. It takes no memory.
    pub fn new(alloc: Global) -> FlowTable
        ensures { result ≡ [] }
    {
        FlowTable {
            rows: Vec::new(alloc),
        }
    }

    /// Adds the row at the end. `NoMemory` leaves the table as it was, and drops the row.
    pub fn push(&mut self, row: Numbers) -> Result<(), NoMemory>
        ensures added { IfOk result (λ _. self.new ≡ self.old ++ row ∷ []) }
        ensures unchanged { OnErr result (self.new ≡ self.old) }
    {
        let row = row.into_vec();
        self.rows.push(row)?;
        Ok(())
    }

    /// The number of rows.
    pub fn rows(&self) -> usize
        ensures { result ≡ length self.now }
    {
        self.rows.len()
    }

    /// Row `i`, in the unit in which it was written.
    pub fn row(&self, i: usize) -> &[i128]
        requires { i < length self.now }
        ensures { result.now ≡ row_at self.now i }
    {
        self.rows[i].as_slice()
    }

    /// Row `i`, to be written. All other rows stay.
    pub fn row_mut(&mut self, i: usize) -> &mut [i128]
        requires { i < length self.old }
        ensures* writes_back { sem 𝓛 (LendsRow self.entry i result) }
        ensures value { result.now ≡ row_at self.old i }
    {
        let row = &mut self.rows[i];
        row.as_mut_slice()
    }
}
