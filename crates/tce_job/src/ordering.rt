// The orders in which the loops of a run go.
ghost use Rattle.std.specs.Prelude.{◌≡◌, ◌<◌};
ghost use Rattle.tce_space.specs.Limits.{max_indexes};
ghost use Rattle.tce_tree.specs.ContractionTree.{operations};
ghost use Rattle.tce_tree.specs.Fusion.{Carries, FusionFits, OrdersFit};
ghost use Rattle.tce_tree.specs.Orders.{lists_of};

use crate::reads::Model;
use arrayvec::ArrayVec;
use tce_fusion::first_not_carried;
use tce_space::{LoopOrder, MAX_INDEXES, MAX_LOOPS, MAX_NODES};
use tce_tree::{Fusion, Orders, Tree};

// How often all pairs of loops are looked at.
const ROUNDS: usize = 4;

// Orders whose reads cost less by less than this part are not taken, for the model is not that exact.
const PART: u64 = 16;

// The number of no node.
const NONE: u8 = u8::MAX;

// Of each node and index the highest node of the index's scope there, or `NONE` where the index is no loop of the node.
#[derive(Drop)]
struct Tops([[u8; MAX_INDEXES]; MAX_NODES]);

// Orders with what their reads cost, and whether they came of an exchange in this round.
#[derive(Drop)]
struct Best {
    orders: Orders,
    cost: u64,
    is_new: bool,
}

/// The orders in which the loops of a run go: those of its plan, in which loops of one scope have changed places where fewer
/// tiles are read by that.
///
/// The report of a run shows the orders of its plan. Whatever orders carry the fusion, the values are the same.
pub(crate) fn running_orders(tree: &Tree, fusion: &Fusion, orders: &Orders, model: &Model) -> Orders
    requires fusion { FusionFits tree.now fusion.now.0.items }
    requires orders { OrdersFit tree.now (lists_of orders.now.0.items) }
    requires carried { Carries tree.now fusion.now.0.items (lists_of orders.now.0.items) }
    ensures fit { OrdersFit tree.now (lists_of result.0.items) }
    ensures carried { Carries tree.now fusion.now.0.items (lists_of result.0.items) }
{
    let found = least_reads(model, &tops_of(tree, fusion), orders);
    if found.fits(tree) && first_not_carried(tree, fusion, &found).is_none() {
        return found;
    }
    copied(orders)
}

// These orders, or those with loops exchanged as long as their reads cost less, where that is enough less.
fn least_reads(model: &Model, tops: &Tops, orders: &Orders) -> Orders {
    let before = model.cost(orders.0.as_slice());
    let mut best = Best {
        orders: copied(orders),
        cost: before,
        is_new: true,
    };
    for _ in 0..ROUNDS {
        if best.is_new {
            best.is_new = false;
            exchange_all(model, tops, &mut best);
        }
    }
    let Best {
        orders: found,
        cost: after,
        is_new: _,
    } = best;
    if after == before || after <= before.saturating_sub(before / PART) {
        return found;
    }
    copied(orders)
}

// Tries all pairs of loops.
fn exchange_all(model: &Model, tops: &Tops, best: &mut Best) {
    for v in 0..MAX_NODES as u8 {
        exchange_below(model, tops, v, best);
    }
}

// Tries each pair of the loops whose scopes have this node at the top.
fn exchange_below(model: &Model, tops: &Tops, v: u8, best: &mut Best) {
    for outer in 0..MAX_LOOPS {
        for inner in 0..MAX_LOOPS {
            if outer < inner {
                exchange_pair(model, tops, v, [outer, inner], best);
            }
        }
    }
}

// Exchanges the loops at two depths of a node, the outer one first, where they have one scope and the reads cost less, or as
// much and only the inner one goes from tile to tile.
fn exchange_pair(model: &Model, tops: &Tops, v: u8, depths: [usize; 2], best: &mut Best) {
    let outer = loop_at(&best.orders, v, depths[0]);
    let inner = loop_at(&best.orders, v, depths[1]);
    let (Some(i), Some(j)) = (outer, inner) else {
        return;
    };
    if !tops.are_one_scope(v, i, j) {
        return;
    }
    let tried = exchanged(&best.orders, tops, v, i, j);
    let cost = model.cost(tried.0.as_slice());
    let is_outward = model.has_one_tile(i) && !model.has_one_tile(j);
    if cost < best.cost || cost == best.cost && is_outward {
        *best = Best {
            orders: tried,
            cost,
            is_new: true,
        };
    }
}

// The loop at a depth of a node, where there is one.
fn loop_at(orders: &Orders, v: u8, depth: usize) -> Option<u8> {
    let order = orders.0.get(v as usize)?;
    order.0.get(depth).copied()
}

// The orders with both loops exchanged in the scope that has node `v` at the top.
fn exchanged(orders: &Orders, tops: &Tops, v: u8, i: u8, j: u8) -> Orders {
    let mut exchanged = ArrayVec::new();
    for w in 0..orders.0.len() {
        let order = &orders.0[w];
        if tops.is_below(w, i, v) {
            exchanged.push(with_exchange(order, i, j));
        } else {
            exchanged.push(copy_of(order));
        }
    }
    Orders(exchanged)
}

fn with_exchange(order: &LoopOrder, i: u8, j: u8) -> LoopOrder {
    let mut loops = ArrayVec::new();
    for index in order.0.as_slice() {
        if *index == i {
            loops.push(j);
        } else if *index == j {
            loops.push(i);
        } else {
            loops.push(*index);
        }
    }
    LoopOrder(loops)
}

fn copied(orders: &Orders) -> Orders
    ensures { result.0.items ≡ orders.now.0.items }
{
    let mut copy = ArrayVec::new();
    for order in orders.0.as_slice() {
        copy.push(copy_of(order));
    }
    Orders(copy)
}

fn copy_of(order: &LoopOrder) -> LoopOrder
    ensures { result ≡ order.now }
{
    let mut copy = ArrayVec::new();
    for index in order.0.as_slice() {
        copy.push(*index);
    }
    LoopOrder(copy)
}

impl Tops {
    // Whether node `v` is at the top of the scope that the index has at node `w`.
    fn is_below(&self, w: usize, index: u8, v: u8) -> bool {
        match self.0.get(w) {
            Some(tops) => tops.get(index as usize) == Some(&v),
            None => false,
        }
    }

    // Whether both indexes have the same scope, with node `v` at the top.
    fn are_one_scope(&self, v: u8, i: u8, j: u8) -> bool {
        if !self.is_below(v as usize, i, v) {
            return false;
        }
        for w in 0..MAX_NODES {
            if self.is_below(w, i, v) != self.is_below(w, j, v) {
                return false;
            }
        }
        true
    }
}

// The scopes of a fusion.
fn tops_of(tree: &Tree, fusion: &Fusion) -> Tops
    requires { FusionFits tree.now fusion.now.0.items }
{
    let mut tops = Tops([[NONE; MAX_INDEXES]; MAX_NODES]);
    for v in (0..tree.count()).rev() {
        for i in 0..MAX_INDEXES as u8 {
            if tree.loops(v).has(i) {
                tops.0[v as usize][i as usize] = top_of(tree, fusion, &tops, v, i);
            }
        }
    }
    tops
}

// The highest node of the scope that a loop of node `v` has there, from those of the nodes above.
fn top_of(tree: &Tree, fusion: &Fusion, tops: &Tops, v: u8, i: u8) -> u8
    requires fits { FusionFits tree.now fusion.now.0.items }
    requires node { v < operations tree.now }
    requires index { i < max_indexes }
{
    match tree.parent(v) {
        Some(parent) if fusion.0[v as usize].has(i) => tops.0[parent as usize][i as usize],
        _ => v,
    }
}
