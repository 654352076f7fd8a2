//! What is counted of the nodes in the cells.

ghost use Rattle.std.specs.Prelude.{◌≡◌, ◌+◌, ◌*◌, ◌<◌, ◌≤◌, [], true, false, length, slice_set, vec_capacity, if◌then◌else◌, IfOk};
ghost use Rattle.congee.specs.forms.Forms.{size_of};
ghost use Rattle.joint.specs.declared.limits.TheConstants.{CELLS_MAX};
ghost use Rattle.joint.specs.nodes.CellMarks.{mark_at, with_mark};

use congee::NodeType;
use std::alloc::{AllocError, Global};

/// The node that stands in a cell, or the last that stood there.
#[derive(Clone, Copy, Drop)]
pub struct CellMark {
    /// Its form, which tells what is charged for it.
    pub form: NodeType,
    /// Whether it waits for its destruction.
    pub waits: bool,
}

/// A mark for each cell that was used, and the sums of those that wait.
#[derive(Drop)]
pub struct Counts {
    pub cell_marks: Vec<CellMark>,
    /// Nodes that stand.
    pub standing: u64,
    /// Nodes that wait for their destruction.
    pub waiting: u64,
    /// Their sizes, in bytes.
    pub waiting_bytes: u64,
}

impl Counts {
    /// Nothing counted, with room for so many cells.
    pub(crate) fn new(alloc: Global, cells: u32) -> Result<Counts, AllocError>
        ensures none { IfOk result (λ k. k.cell_marks.items ≡ []) }
        ensures standing { IfOk result (λ k. k.standing ≡ 0) }
        ensures waiting { IfOk result (λ k. (k.waiting ≡ 0) × (k.waiting_bytes ≡ 0)) }
        ensures room { IfOk result (λ k. cells ≤ vec_capacity k.cell_marks) }
    {
        let cell_marks = Vec::with_capacity(alloc, cells as usize)?;
        Ok(Counts {
            cell_marks,
            standing: 0,
            waiting: 0,
            waiting_bytes: 0,
        })
    }

    /// A node of the form comes into a cell.
    pub(crate) fn add(&mut self, cell: u32, form: NodeType)
        requires near { cell ≤ length self.old.cell_marks.items }
        requires room { cell < vec_capacity self.old.cell_marks }
        requires few { self.old.standing ≤ CELLS_MAX }
        ensures cell_marks { self.new.cell_marks.items ≡ with_mark self.old.cell_marks.items cell (record { form = form; waits = false }) }
        ensures room { vec_capacity self.new.cell_marks ≡ vec_capacity self.old.cell_marks }
        ensures standing { self.new.standing ≡ self.old.standing + 1 }
        ensures waiting { self.new.waiting ≡ self.old.waiting }
        ensures bytes { self.new.waiting_bytes ≡ self.old.waiting_bytes }
    {
        self.standing += 1;
        let cell_mark = CellMark { form, waits: false };
        let cell = cell as usize;
        if cell < self.cell_marks.len() {
            self.cell_marks[cell] = cell_mark;
        } else {
            self.cell_marks.push_reserved(cell_mark);
        }
    }

    /// The node of a cell is handed over.
    pub(crate) fn mark(&mut self, cell: u32)
        requires inside { cell < length self.old.cell_marks.items }
        requires few { self.old.waiting ≤ CELLS_MAX }
        requires small { self.old.waiting_bytes ≤ 2104 * CELLS_MAX }
        ensures cell_marks { self.new.cell_marks.items ≡ slice_set self.old.cell_marks.items cell (record (mark_at self.old.cell_marks.items cell) { waits = true }) }
        ensures room { vec_capacity self.new.cell_marks ≡ vec_capacity self.old.cell_marks }
        ensures standing { self.new.standing ≡ self.old.standing }
        ensures waiting { self.new.waiting ≡ self.old.waiting + 1 }
        ensures bytes { self.new.waiting_bytes ≡ self.old.waiting_bytes + size_of (mark_at self.old.cell_marks.items cell).form }
    {
        let cell = cell as usize;
        let form = self.cell_marks[cell].form;
        self.cell_marks[cell] = CellMark { form, waits: true };
        self.waiting += 1;
        self.waiting_bytes += form.size();
    }

    /// What is charged for the node of a cell, in bytes.
    pub(crate) fn size(&self, cell: u32) -> u64
        requires { cell < length self.now.cell_marks.items }
        ensures { result ≡ size_of (mark_at self.now.cell_marks.items cell).form }
    {
        self.cell_marks[cell as usize].form.size()
    }

    /// The node of a cell goes. Answers what was charged for it.
    pub(crate) fn take_off(&mut self, cell: u32) -> u64
        requires inside { cell < length self.old.cell_marks.items }
        requires stands { 1 ≤ self.old.standing }
        requires some { (mark_at self.old.cell_marks.items cell).waits ≡ true → 1 ≤ self.old.waiting }
        requires enough { (mark_at self.old.cell_marks.items cell).waits ≡ true → size_of (mark_at self.old.cell_marks.items cell).form ≤ self.old.waiting_bytes }
        ensures size { result ≡ size_of (mark_at self.old.cell_marks.items cell).form }
        ensures cell_marks { self.new.cell_marks ≡ self.old.cell_marks }
        ensures standing { self.new.standing + 1 ≡ self.old.standing }
        ensures waiting { self.new.waiting + (if (mark_at self.old.cell_marks.items cell).waits then 1 else 0) ≡ self.old.waiting }
        ensures bytes { self.new.waiting_bytes + (if (mark_at self.old.cell_marks.items cell).waits then size_of (mark_at self.old.cell_marks.items cell).form else 0) ≡ self.old.waiting_bytes }
    {
        let cell_mark = self.cell_marks[cell as usize];
        let size = cell_mark.form.size();
        self.standing -= 1;
        if cell_mark.waits {
            self.waiting -= 1;
            self.waiting_bytes -= size;
        }
        size
    }
}
