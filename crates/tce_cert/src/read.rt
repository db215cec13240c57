// Certificates read back.
ghost use Rattle.std.specs.Prelude.{IfErr, IfOk};
ghost use Rattle.tce_tree.specs.WellFormed.{IsDeclaredTree};
ghost use Rattle.tce_cert.specs.Laws.{Certifies, IsFaultOrMemory, RefusesForMemory};

use crate::cursor::Cursor;
use crate::due::{read_end, read_memory, read_opening};
use crate::fault::CertFault;
use crate::nodes::read_nodes;
use crate::tables::read_tables;
use std::alloc::Global;
use tce_nesting::Plan;
use tce_space::Space;
use tce_tree::Tree;

/// Reads the certificate of a plan that fits the tree. Sizes and the memory are in elements.
///
/// Errors: the fault of the first line that is not the one due, or `Memory`, which alone refuses the certificate of such a plan.
pub fn read_cert(alloc: Global, space: &Space, tree: &Tree, bytes: &[u8]) -> Result<Plan, CertFault>
    requires { IsDeclaredTree space.now tree.now }
    ensures ok { IfOk result (Certifies space.now tree.now bytes.now) }
    ensures fault { IfErr result (IsFaultOrMemory space.now tree.now bytes.now) }
    ensures exact { RefusesForMemory space.now tree.now bytes.now result }
{
    let _declared = space.index_count();
    let _count = tree.count();
    let first = read_opening(space, tree, Cursor::new(bytes))?;
    let (nodes, behind) = read_nodes(space, tree, first)?;
    let (memory, heads) = read_memory(space, tree, behind)?;
    let (tables, last) = read_tables(alloc, space, tree, heads)?;
    read_end(space, tree, last)?;
    Ok(Plan {
        fusion: nodes.fusion,
        orders: nodes.orders,
        sizes: nodes.sizes,
        memory,
        tables,
    })
}
