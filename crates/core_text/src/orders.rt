// Orders one after another in one list.
ghost use Rattle.std.specs.Prelude.{◌≡◌, ◌<◌, [], ◌∷◌, ◌++◌, Some, length, slice_get, slice_index, OnOk, OnErr};
ghost use Rattle.row_model.specs.Pieces.{pieces_from, AreBoundsFrom};

use row_model::NoMemory;
use std::alloc::Global;
use std::marker::Model;

/// Lists of columns, which lie one after another in one list.
pub struct Orders {
    columns: Vec<u32>,
    ends: Vec<usize>,
}

// By hand, so that a place where it is dropped proves one call and does not take its parts apart.
impl Drop for Orders {
    fn drop(self) {
        let Orders {
            columns: _columns,
            ends: _ends,
        } = self;
    }
}

impl Model for Orders {
    ghost use Rattle.std.specs.Prelude.{ℕ, List};

    ghost Value = { List (List ℕ) };

    ghost use Rattle.core_text.specs.Orders.{orders_within, AreOrderEnds};

    ghost view = { orders_within };

    ghost invariant = { AreOrderEnds };
}

impl Orders {
    /// No order.
    pub fn new(alloc: Global) -> Self
        ensures { result ≡ [] }
    {
        Orders {
            columns: Vec::new(alloc),
            ends: Vec::new(alloc),
        }
    }

    /// Adds a last order. On an error the orders are as before.
    pub fn push(&mut self, order: &[u32]) -> Result<(), NoMemory>
        ensures ok { OnOk result (self.new ≡ self.old ++ order.now ∷ []) }
        ensures err { OnErr result (self.new ≡ self.old) }
    {
        push_piece(&mut self.columns, &mut self.ends, order)
    }

    /// The order at an index.
    pub fn get(&self, i: usize) -> &[u32]
        requires { i < length self.now }
        ensures { slice_get self.now i ≡ Some result.now }
    {
        piece(&self.columns, &self.ends, i)
    }
}

// Adds a list at the end. On an error both lists stay.
fn push_piece(columns: &mut Vec<u32>, ends: &mut Vec<usize>, order: &[u32]) -> Result<(), NoMemory>
    requires { AreBoundsFrom (length columns.old.items) 0 ends.old.items }
    ensures kept { AreBoundsFrom (length columns.new.items) 0 ends.new.items }
    ensures ok { OnOk result (
        pieces_from columns.new.items 0 ends.new.items
        ≡ pieces_from columns.old.items 0 ends.old.items ++ order.now ∷ []) }
    ensures err { OnErr result ((columns.new.items ≡ columns.old.items) × (ends.new.items ≡ ends.old.items)) }
{
    ends.reserve(1)?;
    columns.extend_from_slice(order)?;
    match ends.push(columns.len()) {
        Ok(()) => Ok(()),
        Err(_) => unreachable!(),
    }
}

// The list at an index.
#[tactic(auto, using(crate::proofs::OrderLemmas::start_before, crate::proofs::OrderLemmas::end_within, crate::proofs::OrderLemmas::piece_between))]
fn piece<'a>(columns: &'a [u32], ends: &[usize], i: usize) -> &'a [u32]
    requires kept { AreBoundsFrom (length columns.now) 0 ends.now }
    requires within { i < length ends.now }
    ensures { slice_get (pieces_from columns.now 0 ends.now) i ≡ Some result.now }
{
    let from = start(ends, i);
    let to = ends[i];
    &columns[from..to]
}

// Where the list at an index begins.
fn start(ends: &[usize], i: usize) -> usize
    requires { i < length ends.now }
    ensures { result ≡ slice_index (0 ∷ ends.now) i }
{
    if i == 0 { 0 } else { ends[i - 1] }
}
