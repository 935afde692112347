//! The graph of records: which records each record names.

ghost use Rattle.std.specs.Prelude.{◌≡◌, ◌<◌, ◌^◌, length, IfOk, OnOk};
ghost use Rattle.std.specs.List.{AllByRecursion};
ghost use Rattle.tpi_records.specs.Records.{IsRecord};
ghost use Rattle.cv_leaves.specs.Place.{IsChecked};
ghost use Rattle.checked_types.specs.Graph.{named_by, graph_of};

use cv_leaves::{places, ref_at};
use std::alloc::{AllocError, Allocator};
use topological_order::Graph;
use tpi_records::{FIRST_INDEX, Records};

/// Replaces the contents of the list with the positions of the records that a record names.
fn list_named<A: Allocator>(named: &mut Vec<u32, A>, bytes: &[u8]) -> Result<(), AllocError>
    requires framed { IsRecord bytes.now }
    requires checked { IsChecked bytes.now }
    ensures { OnOk result (named.new.items ≡ named_by bytes.now) }
{
    named.clear();
    for place in places(bytes) {
        if let Some(position) = ref_at(bytes, place).checked_sub(FIRST_INDEX) {
            named.push(position)?;
        }
    }
    Ok(())
}

/// The graph of records: for each record, the positions of the records that it names.
pub fn graph_of<A: Allocator + Copy>(
    alloc: A,
    records: &Records<'_, A>,
) -> Result<Graph<A>, AllocError>
    requires { AllByRecursion IsChecked records.now }
    ensures value { IfOk result (λ graph. graph ≡ graph_of records.now) }
    ensures few { IfOk result (λ _. length records.now < 2 ^ 30) }
{
    let mut graph = Graph::with_capacity(alloc, records.len())?;
    let mut named = Vec::new(alloc);
    for bytes in records.iter() {
        list_named(&mut named, bytes)?;
        graph.push(&named)?;
    }
    Ok(graph)
}
