// The lines of nodes of a certificate.
ghost use Rattle.std.specs.Prelude.{◌≡◌, ◌≢◌, ◌+◌, ◌++◌, List, length, map, IfErr, IfOk};
ghost use Rattle.std.specs.List.{range_with_len};
ghost use Rattle.tce_tree.specs.ContractionTree.{operations};
ghost use Rattle.tce_tree.specs.Orders.{lists_of};
ghost use Rattle.tce_tree.specs.WellFormed.{IsDeclaredTree};
ghost use Rattle.tce_cert.specs.Faults.{Due, node, IsFaultIn};
ghost use Rattle.tce_cert.specs.Reading.{ReadsNodes, saying};
ghost use Rattle.tce_cert.specs.Cursors.{KeepsNodeFaults};

use crate::cursor::Cursor;
use crate::due::read_node;
use crate::fault::CertFault;
use arrayvec::ArrayVec;
use tce_report::NodeLine;
use tce_space::{MAX_NODES, Space};
use tce_tree::{Fusion, Orders, Tree};

// What the lines of all nodes say, by the numbers of the nodes; the root has no size.
#[derive(Drop)]
pub(crate) struct Nodes {
    pub(crate) fusion: Fusion,
    pub(crate) orders: Orders,
    pub(crate) sizes: ArrayVec<u128, MAX_NODES>,
}

// Reads the lines of all nodes.
pub(crate) fn read_nodes<'a>(
    space: &Space,
    tree: &Tree,
    from: Cursor<'a>,
) -> Result<(Nodes, Cursor<'a>), CertFault>
    requires { IsDeclaredTree space.now tree.now }
    ensures sizes { IfOk result (λ read. length read.0.sizes.items + 1 ≡ operations tree.now) }
    ensures ok { IfOk result (λ read. ReadsNodes space.now tree.now (operations tree.now)
        (saying read.0.fusion.0.items (lists_of read.0.orders.0.items) read.0.sizes.items) from.entry.rest.now read.1.rest.now) }
    ensures on { IfOk result (λ read. KeepsNodeFaults space.now tree.now from.entry read.1) }
    ensures err { IfErr result (λ fault. (ds : List Due) →
        IsFaultIn space.now tree.now (map node (range_with_len 0 (operations tree.now)) ++ ds) from.entry.number from.entry.rest.now fault) }
{
    let mut fusion = ArrayVec::new();
    let mut orders = ArrayVec::new();
    let mut sizes = ArrayVec::new();
    let mut at = from;
    let root = tree.count() - 1;
    for v in 0..root {
        let (said, next) = read_node(space, tree, v, at)?;
        fusion.push(said.fused);
        orders.push(said.order);
        sizes.push(said.size);
        at = next;
    }
    let (of_root, behind) = read_node(space, tree, root, at)?;
    fusion.push(of_root.fused);
    orders.push(of_root.order);
    let nodes = Nodes {
        fusion: Fusion(fusion),
        orders: Orders(orders),
        sizes,
    };
    Ok((nodes, behind))
}
