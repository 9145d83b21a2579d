//! Sets of cells, and their places among those of one size (the combinatorial number system).

ghost use Rattle.std.specs.Prelude.{◌≡◌, ◌^◌, ◌<◌, ◌≤◌, length};
ghost use Rattle.pattern_index.specs.Ranks.{IsListing};
ghost use Rattle.pattern_graph.specs.Sets.{CanChoose, choose, set_place, set_at, IsChoices};

use crate::orders::count_below;

/// The number of ways to choose up to 10 of up to 25 cells.
#[derive(Clone, Copy)]
pub struct Choices {
    table: [[u32; 11]; 26],
}

impl Choices {
    /// Pascal's triangle.
    pub fn new() -> Self
        ensures { IsChoices result }
    {
        let mut table = [[0; 11]; 26];
        table[0][0] = 1;
        'cells: for cells in 1..26 {
            table[cells][0] = 1;
            'counts: for count in 1..11 {
                table[cells][count] = table[cells - 1][count - 1] + table[cells - 1][count];
            }
        }
        Choices { table }
    }

    /// How many sets of `count` cells there are among the first `cells` ones.
    pub fn count(&self, cells: usize, count: usize) -> usize
        requires from { CanChoose self.now cells }
        requires count { count ≤ 10 }
        ensures value { result ≡ choose cells count }
        ensures high { result < 2 ^ 32 }
    {
        self.table[cells][count] as usize
    }

    // The place of a set of different cells, in any order.
    #[tactic(auto, using(crate::proofs::SetLemmas::placed_more, crate::proofs::SetLemmas::placed_all))]
    pub(crate) fn place(&self, cells: &[u8]) -> usize
        requires choices { IsChoices self.now }
        requires few { length cells.now ≤ 9 }
        requires listing { IsListing 25 cells.now }
        ensures { result ≡ set_place cells.now }
    {
        let mut place = 0;
        'cells: for cell in cells {
            place += self.count(*cell as usize, count_below(cells, *cell) + 1);
        }
        place
    }

    /// Writes the cells of the set at a place, in rising order: as many as there is room for.
    pub fn write_set(&self, cells: usize, place: usize, set: &mut [u8])
        requires from { CanChoose self.now cells }
        requires few { length set.old ≤ 9 }
        requires below { place < choose cells (length set.old) }
        ensures { set.new ≡ set_at cells (length set.old) place }
    {
        let mut rest = place;
        let mut left = set.len();
        let mut cell = cells;
        'cells: while left > 0 {
            cell -= 1;
            let fewer = self.count(cell, left);
            if fewer <= rest {
                rest -= fewer;
                left -= 1;
                set[left] = cell as u8;
            }
        }
    }
}
