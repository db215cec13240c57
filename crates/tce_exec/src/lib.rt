//! Runs loop code over the words of a run, tiles in frames, and a disk.
//!
//! A run is an [`Evaluation`], which says what is evaluated, over a [`Storage`], which lends the words, the cache and the disk.
//! Both together are what a run works on (`specs/Workspace.antt`, `specs/Storages.antt`). A node's word stands in its slot, and
//! the root's is an element of the result. [`run_code`] runs loop code: single operations one after the other, and the loops of
//! a tail block by block.
//!
//! **Single operations** ([`operate`]). An element of a tensor is read by touching its tile, and an element of the result is put
//! into its tile, which is touched for writing. The numbers of the open loops come as a list with one number for each index. A
//! node's word is found by the steps of its slot ([`slot_place`]); the element of a tensor by the coordinates that its indexes
//! have ([`coordinates_of`]), by its tile, and by its place in that tile ([`place_of_element`]). `specs/Prepared.antt` says what
//! the calls ask, `specs/Steps.antt` what they leave, `specs/Slots.antt` where the words of slots stand, `specs/NodeStates.antt`
//! what state the words of a run and the tiles of a result stand for, and `specs/OperandLaws.antt` what a word that is put, a
//! slot that is cleared and a tile that is touched do to that state.
//!
//! **Tails.** The loops of a tail are cut at the edges of their indexes. For each block the tiles of its operands and of its
//! result are touched, at most three, and then the loops of the block run over their words, which stay where they are meanwhile.
//! `specs/Windows.antt` says where these words stand, and `specs/Blocks.antt` what the blocks of a tail are. In a block the
//! loops' indexes run from first numbers on. A run keeps these with the tiles in which they lie (`specs/Positions.antt`), so
//! that a tile's number is found without a division, and for each tail a plan: how its loops are cut, in which sequence they
//! run, and the steps of its windows (`specs/Plans.antt`). The words of a node's slot are found by the slot's steps
//! ([`slot_window`]), those of a tile that a frame holds by the edges behind each of its dimensions ([`tile_window`],
//! [`tile_steps`]): a block crosses no edge of a tile, so that all its turns fall into one tile. `specs/OperandWindows.antt` says
//! what these windows are, `specs/TilesOfBlocks.antt` where the turns of a block stay, and `specs/WindowLaws.antt` what the
//! windows show of nodes and of tensors, and what stays when words change.
//!
//! **Bodies.** Operations without a loop among them run at each assignment of one block of the loops round them, one after the
//! other, since an operation may read what the one before has put. Where the cache has a frame for each tile that they touch
//! (`specs/TileCounts.antt`), each tile is touched once for the block, and rows of turns run over the words of all operations'
//! windows (`specs/Links.antt`, `specs/ChainRows.antt`). The last loops are one row where each steps as far as all numbers of
//! the next one, in all windows (`specs/MergedRows.antt`). From row to row the windows go on by the steps of the loop that
//! moves. Else each operation is one by itself at each assignment. `specs/Bodies.antt` says what is asked there.
//!
//! **Terms.** The places of a node whose value is added up from terms are set in one block of the loops round it term by term.
//! The loops of a term stand inside of those of the block, and are cut at the edges of tiles. For each of its blocks the tiles of
//! the operands and of the node's places are touched, at most three; what stands is multiplied by a factor before the first
//! block, and the operand's words or the products of both are added (`specs/TermBlocks.antt`, `specs/TermPlans.antt`).
//!
//! **Blocks.** [`BlockLoops`] has the loops of one block over windows. A [`LoopSequence`] says in which sequence they run, for
//! all blocks of one tail. What the calls leave does not depend on it, by the laws of `loop_laws.rt`.
//!
//! The functions of files whose names end in `laws` do nothing: their contracts are laws of these definitions.
#![tactic(auto)]

mod block;
mod block_loops;
mod body;
mod chain;
mod cuts;
mod element;
mod elements;
mod evaluation;
mod links;
pub mod loop_laws;
mod merging;
mod nest;
mod operand_laws;
mod operand_windows;
mod operation;
mod places;
mod plan;
mod position;
mod puts;
mod row;
mod run;
mod runner;
mod scaling;
mod sequence;
mod slot;
mod slot_places;
mod steps;
mod still;
mod storage;
mod tail;
mod term_block;
mod term_plan;
mod term_windows;
mod terms;
mod tile;
mod turns;
mod window;
mod window_laws;
mod workspace_laws;

pub use block_loops::{
    BlockLoops, OperandWindows, compute, compute_and_grow, grow, grow_by_products,
};
pub use element::{ElementPlace, coordinates_of, place_of_element};
pub use evaluation::Evaluation;
pub use operand_laws::{
    cleared_slots_are_cleared, places_have_their_words, puts_change_one_place,
    slots_lead_to_places, tile_puts_change_one_place, touched_tiles_show_elements,
    touches_keep_states,
};
pub use operation::operate;
pub use puts::clear_slot;
pub use run::run_code;
pub use sequence::LoopSequence;
pub use slot::slot_window;
pub use slot_places::slot_place;
pub use storage::Storage;
pub use tile::{tile_steps, tile_window};
pub use window::Window;
pub use window_laws::{
    blocks_stay_in_tiles, changes_keep_cells, slots_show_nodes, slots_show_words, tiles_show_nodes,
    tiles_show_words, touched_tiles_stay, turns_stay_in_one_tile, windows_are_apart,
};
pub use workspace_laws::{
    operands_are_as_filed, places_hold_words, settings_stay, steps_follow, touches_are_reads,
};
