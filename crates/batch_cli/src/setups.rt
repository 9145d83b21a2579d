//! The setup that options say, with the tables that are built for it.

ghost use Rattle.std.specs.Prelude.{◌≡◌, IfOk};
ghost use Rattle.lower_bound.specs.Tables.{ArePotentials};
ghost use Rattle.batch_cli.specs.Setups.{AreOptionsFit, AreTablesFor, IsSetupOf};

use batch_runs::Setup;
use command_line::Options;
use lower_bound::Bound;
use memory::OutOfMemory;
use pattern_index::Partition;
use std::alloc::Global;
use std::thread::Threads;
use table_sets::{build_bound, build_folded_bound};

/// The setup that the options say. Its tables are built once for all boards, large ones side by
/// side. An error is answered only where memory was refused for them.
pub(crate) fn setup_of(
    rt: &(impl Threads + Sync),
    alloc: Global,
    options: Options,
) -> Result<Setup, OutOfMemory>
    requires { AreOptionsFit options }
    ensures setup { IfOk result (IsSetupOf options) }
{
    let Options {
        goal,
        costs,
        groups,
        fold,
        workers,
        spread,
        limit,
        progress: _,
        stats: _,
    } = options;
    let setup = Setup::new(alloc, goal, costs)
        .limit(limit)
        .spread(spread)
        .workers(workers as usize)
        .unwrap();
    let bound = bound_for(rt, alloc, &setup, groups, fold)?;
    Ok(setup.bound(bound))
}

// The tables of the groups for a setup's goal and costs, folded where that is asked for.
fn bound_for(
    rt: &(impl Threads + Sync),
    alloc: Global,
    setup: &Setup,
    groups: Partition,
    fold: bool,
) -> Result<Bound, OutOfMemory>
    requires { setup.now.goal.grid ≡ groups.grid }
    ensures built { IfOk result (AreTablesFor fold groups setup.now.rule setup.now.goal) }
    ensures potentials { IfOk result (ArePotentials setup.now.rule setup.now.goal) }
{
    let goal = setup.goal();
    let weights = setup.weights();
    if fold {
        return build_folded_bound(rt, alloc, groups, &goal, &weights);
    }
    build_bound(rt, alloc, groups, &goal, &weights)
}
