//! An order of records in which each comes after those that it names.

ghost use Rattle.std.specs.Prelude.{◌≡◌, ◌+◌, ◌-◌, ◌≤◌, ◌<◌, ◌^◌, [], ℕ, List, length, get_or, map, IfOk, IfErr};
ghost use Rattle.std.specs.List.{All, AllByRecursion, range_with_len};
ghost use Rattle.std.specs.Iterator.{YieldsFirst, item_count};
ghost use Rattle.tpi_records.specs.Records.{IsRecord};
ghost use Rattle.cv_leaves.specs.Place.{IsChecked};
ghost use Rattle.topological_order.specs.Order.{IsOrder};
ghost use Rattle.checked_types.specs.Graph.{graph_of};
ghost use Rattle.checked_types.specs.Order.{order_list};
ghost use Rattle.checked_types.specs.Check.{AllNameThere, IsCycleFault};

use crate::fault::TypeFault;
use crate::graph::graph_of;
use std::alloc::{Allocator, Global};
use std::marker::Model;
use topological_order::{OrderFault, topological_order};
use tpi_records::{Cursor, FIRST_INDEX, Records};

/// The bytes of the record at a position. The record is whole: it begins with its length field.
pub fn record_at<'a, A: Allocator>(records: &mut Cursor<'_, 'a, A>, position: usize) -> &'a [u8]
    requires { position < length records.old }
    ensures value { result.now ≡ get_or records.old position [] }
    ensures framed { IsRecord result.now }
    ensures same { records.new ≡ records.old }
{
    let Some(bytes) = records.get(position) else {
        unreachable!()
    };
    bytes
}

/// An order of records in which each comes after those that it names.
#[derive(Debug, Drop)]
pub enum Order<A: Allocator = Global> {
    /// The order of the records themselves.
    InFileOrder,
    /// The order of these positions.
    Listed(Vec<u32, A>),
}

impl<A: Allocator> Order<A> {
    /// The positions of `len` records in this order.
    pub fn positions(&self, len: usize) -> InOrder<'_>
        ensures { result ≡ order_list len self.now }
    {
        match self {
            Order::InFileOrder => in_file_order(len),
            Order::Listed(list) => InOrder {
                listed: Some(list),
                next: 0,
                end: list.len(),
            },
        }
    }
}

/// The positions of `len` records as they stand.
fn in_file_order<'t>(len: usize) -> InOrder<'t>
    ensures { result ≡ range_with_len 0 len }
{
    InOrder {
        listed: None,
        next: 0,
        end: len,
    }
}

/// Replaces each position with the type index of the record there.
fn to_indices(positions: &mut [u32])
    requires { All (λ p. p < 2 ^ 30) positions.old }
    ensures { positions.new ≡ map (λ p. FIRST_INDEX + p) positions.old }
{
    for position in positions.iter_mut() {
        *position += FIRST_INDEX;
    }
}

/// Puts records in order. This takes time and memory in proportion to the records and to their
/// references.
pub fn arrange<A: Allocator + Copy>(
    alloc: A,
    records: &Records<'_, A>,
) -> Result<Order<A>, TypeFault<A>>
    requires checked { AllByRecursion IsChecked records.now }
    requires there { AllNameThere (length records.now) records.now }
    ensures value { IfOk result (λ order.
        IsOrder (graph_of records.now) (order_list (length records.now) order)) }
    ensures cycle { IfErr result (IsCycleFault records.now) }
{
    let graph = graph_of(alloc, records)?;
    match topological_order(alloc, &graph) {
        Ok(order) => Ok(Order::Listed(order)),
        Err(OrderFault::Cycle { mut nodes }) => {
            to_indices(&mut nodes);
            Err(TypeFault::Cycle { records: nodes })
        }
        Err(OrderFault::Memory) => Err(TypeFault::Memory),
    }
}

/// The positions of records, each after those of the records that it names.
///
/// [`Types::in_order`](crate::Types::in_order) makes it. It does not allocate.
#[derive(Debug, Drop)]
pub struct InOrder<'t> {
    // the positions in this order, or `None` where the records are already in order
    listed: Option<&'t [u32]>,
    next: usize,
    end: usize,
}

impl<'t> Model for InOrder<'t> {
    ghost use Rattle.std.specs.Prelude.{List, ℕ, ◌≤◌};
    ghost use Rattle.checked_types.specs.Order.{positions_left, EndsAt};

    ghost Value = { List ℕ };

    ghost view = { λ s. positions_left s.listed s.next s.end };

    ghost invariant = { λ s. (s.next ≤ s.end) × EndsAt s.listed s.end };
}

impl<'t> Iterator for InOrder<'t> {
    type Item = usize;

    ghost next_gives = { YieldsFirst (λ s. s) };

    ghost remaining = { item_count (λ s. s) };

    #[tactic(auto, using(crate::proofs::OrderLaws::left_listed, crate::proofs::OrderLaws::left_counted, crate::proofs::OrderLaws::left_none))]
    fn next(&mut self) -> Option<usize> {
        if self.end <= self.next {
            return None;
        }
        let position = match self.listed {
            Some(list) => *list.get(self.next)? as usize,
            None => self.next,
        };
        self.next += 1;
        Some(position)
    }
}
