//! The graph of a group's views: orders of its tiles, regions of the blank, moves between them.
//!
//! Past tiles of no group the blank moves at no cost. So while a group's tiles stay where they are,
//! the cells that the blank reaches are one region (`Regions`), and the views with the blank there
//! are one node of a `Graph`. Edges lead from node to node where a tile of the group moves.
//!
//! A `Frame` is for all groups of as many tiles, and the graph of each is made from it. `Graph::new`
//! gives the graph of the group's views and view moves (`IsGraphOf`), and each edge leads to a node
//! (`IsSoundGraph`): the searches of `pattern_search` need no more.
//!
//! - A region depends only on the set of the tiles' cells, and a set has its place among those of
//!   its size (`Choices`). How the tiles lie on the set is an order (`Orders`): for each tile how
//!   many tiles before it are on smaller cells.
//! - A node is a region with an order. An edge leads from region to region where a tile goes to the
//!   blank's cell (`Edges`); it moves the tile's position, so edges are found once for all orders.
//! - `IsGraph` ties nodes and edges to views and view moves; `graph_of` of `GraphLemmas` proves it.
//!   A search needs nothing else of them.
//! - `rank_values` writes values row by row: a row has the views that differ in the last tile's
//!   cell. `write_slots` writes them set by set.
//! - The law `places_without_views`: a sparse place has no view exactly where two of its digits are
//!   the same.
//! - Start with `specs/Regions.antt`, `specs/Graphs.antt`, then `src/graph.rt`.
#![tactic(auto)]

mod edges;
mod frame;
mod graph;
pub mod laws;
mod orders;
mod regions;
mod rows;
mod sets;
mod slots;

pub use edges::{Edge, Edges};
pub use frame::Frame;
pub use graph::Graph;
pub use orders::{Orders, factorial};
pub use regions::{Home, Regions};
pub use rows::{mark_cells, rank_least, rank_values};
pub use sets::Choices;
pub use slots::{find_positions, place_tiles, write_places, write_slots};
