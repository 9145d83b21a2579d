//! Walks over the views of a group.

ghost use Rattle.std.specs.Prelude.{◌≡◌, ◌≤◌, ◌*◌, length, All};
ghost use Rattle.pattern_index.specs.Views.{IsView};
ghost use Rattle.pattern_index.specs.Groups.{IsGroup};

use crate::kernels::steps::next_state;
use pattern_index::{Group, MAX_SIZE, View};

// How many views are drawn of a group: as many as 10 bits number.
const DRAWN: usize = 1024;

/// The sum of the ranks of this many views of a group, which are drawn from `DRAWN` of its views.
pub fn sum_of_ranks(group: &Group, ranks: u32) -> u64
    ensures { result ≤ MAX_SIZE * ranks }
{
    let drawn = draw_views(group);
    let views = &drawn[..];
    let mut sum = 0;
    let mut state = 1;
    'ranks: for _ in 0..ranks {
        state = next_state(state);
        sum += group.rank(&views[(state >> 54) as usize]) as u64;
    }
    sum
}

// Some views of a group.
fn draw_views(group: &Group) -> [View; DRAWN]
    ensures count { length result ≡ DRAWN }
    ensures views { All (λ view. IsView group.now.grid group.now.tiles view) result }
{
    let size = group.size() as u64;
    let mut views = [group.unrank(0); DRAWN];
    let mut state = 2;
    'views: for place in 0..DRAWN {
        state = next_state(state);
        views[place] = group.unrank((state % size) as usize);
    }
    views
}
