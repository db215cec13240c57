// Loop orders that carry a fusion.
ghost use Rattle.std.specs.Prelude.{◌≡◌, ◌<◌, ◌≤◌, ◌+◌, ℕ, ◌↔◌, IsTrue, IsNone, IfSome, All, AllPairs, IsPermutation, length};
ghost use Rattle.tce_space.specs.Limits.{max_indexes, max_loops, max_nodes};
ghost use Rattle.tce_space.specs.IndexSet.{members, count as size};
ghost use Rattle.tce_tree.specs.ContractionTree.{operations};
ghost use Rattle.tce_tree.specs.Fusion.{FusionFits, OrdersFit, Carries, LeadBoth, fused_at, order_at};
ghost use Rattle.tce_tree.specs.Orders.{lists_of};
ghost use Rattle.tce_fusion.specs.Scope.{IsLegal, IsStandardAt, StandsBefore};
ghost use Rattle.tce_fusion.specs.Tops.{size_in, scope_nodes, nodes_at, IsSmallerAt};
ghost use Rattle.tce_fusion.specs.Carried.{IsCarried, IsNotCarriedAt, AreCarriedBelow};

use crate::legality::{is_joined, tops_in};
use crate::scopes::{Scopes, scopes_of};
use arrayvec::ArrayVec;
use tce_space::{IndexSet, LoopOrder, MAX_INDEXES, MAX_NODES};
use tce_tree::{Fusion, Orders, Tree};

/// The standard orders of a legal fusion, which carry it: at each node the loops stand by the number of nodes in their scope, most first, and equal ones by index number.
pub fn standard_orders(tree: &Tree, fusion: &Fusion) -> Orders
    requires fits { FusionFits tree.now fusion.now.0.items }
    requires legal { IsLegal tree.now fusion.now.0.items }
    ensures fit { OrdersFit tree.now (lists_of result.0.items) }
    ensures standard { (v : ℕ) → v < operations tree.now
        → IsStandardAt tree.now fusion.now.0.items v (order_at (lists_of result.0.items) v) }
    ensures carried { Carries tree.now fusion.now.0.items (lists_of result.0.items) }
{
    let scopes = scopes_of(tree, fusion);
    let count = tree.count();
    let mut orders = ArrayVec::new();
    for v in 0..count {
        orders.push(standard_order(&scopes, count, tree.loops(v), v));
    }
    Orders(orders)
}

/// The least node but the root whose fused set is not, in one sequence, the leading part of its own and its parent's order; `None` exactly where the orders carry the fusion, which is then legal.
pub fn first_not_carried(tree: &Tree, fusion: &Fusion, orders: &Orders) -> Option<u8>
    requires fusion_fits { FusionFits tree.now fusion.now.0.items }
    requires orders_fit { OrdersFit tree.now (lists_of orders.now.0.items) }
    ensures found { IfSome result (IsNotCarriedAt tree.now fusion.now.0.items orders.now.0.items) }
    ensures inside { IfSome result (λ v. v + 1 < operations tree.now) }
    ensures least { IfSome result (AreCarriedBelow tree.now fusion.now.0.items orders.now.0.items) }
    ensures carried { IsNone result ↔ IsCarried tree.now fusion.now.0.items orders.now.0.items }
    ensures legal { IsNone result → IsLegal tree.now fusion.now.0.items }
{
    for v in 0..tree.count() {
        if let Some(p) = tree.parent(v) {
            if !leads_both(
                fused_at_node(fusion, v),
                order_at_node(orders, v),
                order_at_node(orders, p),
            ) {
                return Some(v);
            }
        }
    }
    None
}

fn fused_at_node(fusion: &Fusion, v: u8) -> IndexSet
    requires { v < length fusion.now.0.items }
    ensures { result ≡ fused_at fusion.now.0.items v }
{
    fusion.0[v as usize]
}

fn order_at_node(orders: &Orders, v: u8) -> &LoopOrder
    requires { v < length orders.now.0.items }
    ensures { result.now.0.items ≡ order_at (lists_of orders.now.0.items) v }
{
    &orders.0[v as usize]
}

// Whether both orders begin with the fused indexes, in one sequence.
fn leads_both(fused: IndexSet, lower: &LoopOrder, upper: &LoopOrder) -> bool
    requires lower_long { size fused ≤ length lower.now.0.items }
    requires upper_long { size fused ≤ length upper.now.0.items }
    requires indexes { All (λ i. i < max_indexes) lower.now.0.items }
    ensures { IsTrue result ↔ LeadBoth fused lower.now.0.items upper.now.0.items }
{
    let size = fused.count() as usize;
    let lower_front = &lower.0.as_slice()[..size];
    let upper_front = &upper.0.as_slice()[..size];
    lower_front == upper_front && IndexSet::of_list(lower_front) == fused
}

// The loops of a node by the sizes of their scopes there.
fn standard_order(scopes: &Scopes, count: u8, loops: IndexSet, v: u8) -> LoopOrder
    requires few { count ≤ max_nodes }
    requires inside { v < count }
    requires limit { size loops ≤ max_loops }
    ensures permutes { IsPermutation (members loops) result.0.items }
    ensures standard { AllPairs (StandsBefore (scope_nodes scopes.now.0 count v)) result.0.items }
{
    let mut order = ArrayVec::new();
    for i in 0..MAX_INDEXES as u8 {
        if loops.has(i) {
            let size = scope_size(tops_in(scopes, i), count, v);
            let place = place_behind(scopes, count, v, order.as_slice(), size);
            order.insert(place, i);
        }
    }
    LoopOrder(order)
}

// The place behind the first indexes whose scopes have at least `size` nodes.
fn place_behind(scopes: &Scopes, count: u8, v: u8, order: &[u8], size: u8) -> usize
    requires few { count ≤ max_nodes }
    requires inside { v < count }
    requires indexes { All (λ i. i < max_indexes) order.now }
    ensures within { result ≤ length order.now }
    ensures before { (k : ℕ) → k < result → size ≤ nodes_at scopes.now.0 count v order.now k }
    ensures behind { IsSmallerAt scopes.now.0 count v order.now size result }
{
    for (k, i) in order.iter().enumerate() {
        if scope_size(tops_in(scopes, *i), count, v) < size {
            return k;
        }
    }
    order.len()
}

// How many nodes the scope at a node has.
fn scope_size(tops: &[u8; MAX_NODES], count: u8, v: u8) -> u8
    requires few { count ≤ max_nodes }
    requires inside { v < count }
    ensures { result ≡ size_in count tops.now v }
{
    let mut size = 0;
    for w in 0..count {
        if is_joined(tops, v, w) {
            size += 1;
        }
    }
    size
}
