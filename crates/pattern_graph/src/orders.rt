//! Orders: how tiles lie on a set of cells, whatever the cells are.

ghost use Rattle.std.specs.Prelude.{ℕ, ◌≡◌, ◌+◌, ◌<◌, ◌≤◌, ◌==◌, ◌++◌, length, map, All, IfOk};
ghost use Rattle.std.specs.Prelude.{OnOk};
ghost use Rattle.std.specs.List.{position_or_len, range_with_len};
ghost use Rattle.pattern_index.specs.Laws.{factorial};
ghost use Rattle.pattern_index.specs.Ranks.{spread};
ghost use Rattle.pattern_graph.specs.Orders.{below, order_of, positions_at, tile_of};
ghost use Rattle.pattern_graph.specs.Orders.{exchanged_position};
ghost use Rattle.pattern_graph.specs.Orders.{moved_order};
ghost use Rattle.pattern_graph.specs.Orders.{IsOrderOf, IsTileCount, IsChange, IsChanged};
ghost use Rattle.pattern_graph.specs.Graphs.{AreMoves, HasPasses, HasPassesTo, IsOrders};

use memory::{OutOfMemory, copy_of, push};
use std::alloc::Global;

/// The product of the numbers from 1 to this one: how many orders this many tiles have.
pub fn factorial(count: usize) -> usize
    requires { count ≤ 9 }
    ensures value { result ≡ factorial count }
    ensures low { 1 ≤ result }
    ensures high { result ≤ 362_880 }
{
    let mut product = 1;
    'factors: for factor in 0..count {
        product *= factor + 1;
    }
    product
}

// How many of the cells are below one.
pub(crate) fn count_below(cells: &[u8], cell: u8) -> usize
    ensures value { result ≡ below cell cells.now }
    ensures high { result ≤ length cells.now }
{
    let mut count = 0;
    'cells: for other in cells {
        if *other < cell {
            count += 1;
        }
    }
    count
}

// The order of the cells that tiles are on.
pub(crate) fn order_of(cells: &[u8]) -> usize
    requires { length cells.now ≤ 9 }
    ensures value { result ≡ order_of cells.now }
    ensures below { result < factorial (length cells.now) }
{
    let mut order = 0;
    let mut unit = 1;
    'tiles: for tile in 0..cells.len() {
        order += count_below(&cells[..tile], cells[tile]) * unit;
        unit *= tile + 1;
    }
    order
}

// Writes for each tile the number of tiles on smaller cells, by their order.
pub(crate) fn write_positions(order: usize, positions: &mut [u8])
    requires { IsOrderOf (length positions.old) order }
    ensures { positions.new ≡ positions_at (length positions.old) order }
{
    let mut rest = order;
    'tiles: for tile in 0..positions.len() {
        let digit = (rest % (tile + 1)) as u8;
        rest /= tile + 1;
        spread_positions(&mut positions[..tile], digit);
        positions[tile] = digit;
    }
}

// Moves the positions from one on up by one.
fn spread_positions(positions: &mut [u8], digit: u8)
    requires { All (λ position. position < 255) positions.old }
    ensures { positions.new ≡ map (spread digit) positions.old }
{
    'tiles: for position in positions.iter_mut() {
        if digit <= *position {
            *position += 1;
        }
    }
}

// For up to this many tiles all moves of orders are kept: 7 * 7 * 7! numbers.
const MOST_MOVED: usize = 7;

/// What is kept for each order of some count of tiles. An order is a number below `size`.
#[derive(Drop)]
pub struct Orders {
    /// How many tiles there are, 1 to 9.
    pub count: usize,
    /// How many orders they have.
    pub size: usize,
    // The tile at each position, by order.
    tiles: Vec<u8>,
    // The order after the tiles at a position and at the next one are exchanged, by order.
    passes: Vec<u32>,
    // The order after the tile at a position has come to another, by both and then by order. Empty
    // where there are more than `MOST_MOVED` tiles.
    moves: Vec<u32>,
}

impl Orders {
    #[tactic(auto, using(crate::proofs::OrderTables::kept_next, crate::proofs::OrderTables::kept_own))]
    pub(crate) fn new(alloc: Global, count: usize) -> Result<Self, OutOfMemory>
        requires { IsTileCount count }
        ensures { IfOk result (IsOrders count) }
    {
        let mut orders = Orders {
            count,
            size: factorial(count),
            tiles: Vec::new(alloc),
            passes: Vec::new(alloc),
            moves: Vec::new(alloc),
        };
        'orders: for order in 0..orders.size {
            orders.add_order(order)?;
        }
        if count <= MOST_MOVED {
            orders.moves = find_moves(alloc, &orders)?;
        }
        Ok(orders)
    }

    // A copy.
    pub(crate) fn copy(&self, alloc: Global) -> Result<Self, OutOfMemory>
        ensures { (count : ℕ) → IsOrders count self.now → IfOk result (IsOrders count) }
    {
        Ok(Orders {
            count: self.count,
            size: self.size,
            tiles: copy_of(alloc, &self.tiles)?,
            passes: copy_of(alloc, &self.passes)?,
            moves: copy_of(alloc, &self.moves)?,
        })
    }

    // Adds what is kept for one order more.
    fn add_order(&mut self, order: usize) -> Result<(), OutOfMemory>
        requires orders { HasPassesTo self.old.count order self.old }
        requires order { order < factorial self.old.count }
        ensures { OnOk result (HasPassesTo self.old.count (order + 1) self.new) }
    {
        let mut positions = [0; 9];
        write_positions(order, &mut positions[..self.count]);
        'positions: for position in 0..self.count {
            let tile = tile_at(&positions[..self.count], position as u8);
            push(&mut self.tiles, tile as u8)?;
        }
        'passes: for position in 0..self.count - 1 {
            let mut passed = positions;
            exchange(&mut passed[..self.count], position as u8);
            let other = order_of(&passed[..self.count]);
            push(&mut self.passes, other as u32)?;
        }
        Ok(())
    }

    /// How many orders there are.
    pub fn size(&self) -> usize
        ensures { result ≡ self.now.size }
    {
        self.size
    }

    /// The tile at a position, each counted from 0: the position is how many others are on smaller
    /// cells.
    #[tactic(auto, using(crate::proofs::OrderTables::tile_read))]
    pub fn tile(&self, order: usize, position: usize) -> usize
        requires orders { IsOrders self.now.count self.now }
        requires order { order < factorial self.now.count }
        requires position { position < self.now.count }
        ensures value { result ≡ tile_of self.now.count order position }
        ensures below { result < self.now.count }
    {
        self.tiles[order * self.count + position] as usize
    }

    /// The order after the tile at a position has come to another.
    #[tactic(auto, using(crate::proofs::OrderTables::move_read))]
    pub fn moved(&self, order: usize, from: usize, to: usize) -> usize
        requires orders { IsOrders self.now.count self.now }
        requires change { IsChange self.now.count order from to }
        ensures { IsChanged self.now.count order from to result }
    {
        if self.count <= MOST_MOVED {
            return self.moves[(from * self.count + to) * self.size + order] as usize;
        }
        self.passed(order, from, to)
    }

    // The same, by one exchange after another.
    fn passed(&self, order: usize, from: usize, to: usize) -> usize
        requires orders { HasPasses self.now.count self.now }
        requires change { IsChange self.now.count order from to }
        ensures { IsChanged self.now.count order from to result }
    {
        let mut order = order;
        let mut at = from;
        'up: while at < to {
            order = self.passes[order * (self.count - 1) + at] as usize;
            at += 1;
        }
        'down: while to < at {
            at -= 1;
            order = self.passes[order * (self.count - 1) + at] as usize;
        }
        order
    }
}

// The order after the tile at a position has come to another, for all positions and orders.
fn find_moves(alloc: Global, orders: &Orders) -> Result<Vec<u32>, OutOfMemory>
    requires orders { HasPasses orders.now.count orders.now }
    requires few { orders.now.count ≤ MOST_MOVED }
    ensures { IfOk result (λ moves. AreMoves orders.now.count moves.items) }
{
    let mut moves = Vec::new(alloc);
    'from: for from in 0..orders.count {
        'to: for to in 0..orders.count {
            add_moves(orders, from, to, &mut moves)?;
        }
    }
    Ok(moves)
}

// Puts them at the end for one pair of positions.
fn add_moves(
    orders: &Orders,
    from: usize,
    to: usize,
    moves: &mut Vec<u32>,
) -> Result<(), OutOfMemory>
    requires orders { HasPasses orders.now.count orders.now }
    requires from { from < orders.now.count }
    requires to { to < orders.now.count }
    ensures { OnOk result (moves.new.items ≡ moves.old.items
        ++ map (λ order. moved_order orders.now.count order from to)
        (range_with_len 0 (factorial orders.now.count))) }
{
    'orders: for order in 0..orders.size {
        push(moves, orders.passed(order, from, to) as u32)?;
    }
    Ok(())
}

// The place of the tile at a position.
fn tile_at(positions: &[u8], position: u8) -> usize
    requires { 0 < length positions.now }
    ensures within { result ≤ length positions.now }
    ensures value { result ≡ position_or_len (λ other. other == position) positions.now }
{
    let mut tile = 0;
    'tiles: while tile < positions.len() {
        if positions[tile] == position {
            return tile;
        }
        tile += 1;
    }
    tile
}

// Exchanges the tiles at a position and at the next one.
fn exchange(positions: &mut [u8], position: u8)
    requires { position < 255 }
    ensures { positions.new ≡ map (exchanged_position position) positions.old }
{
    'tiles: for other in positions.iter_mut() {
        if *other == position {
            *other = position + 1;
        } else if *other == position + 1 {
            *other = position;
        }
    }
}
