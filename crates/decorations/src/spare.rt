//! Runs without a place, for an indicator that is filled for the first time.
ghost use Rattle.std.specs.Prelude.{◌≡◌, ◌≤◌, replicate};
ghost use Rattle.run_styles.specs.Runs.{Fit, GrowsFor, runs};
ghost use Rattle.decorations.specs.Decorated.{no_runs};
ghost use Rattle.vec_room.specs.Reserved.{IsReserved};

use partitioning::Place;
use run_styles::RunStyles;
use std::alloc::{AllocError, Global};
use std::marker::Model;

/// Runs without a place, or none yet. A contract sees how many runs fit in.
#[derive(Drop)]
pub(crate) struct SpareRuns<P: Place> {
    runs: Option<RunStyles<P, u32>>,
}

impl<P: Place> Model for SpareRuns<P> {
    ghost use Rattle.std.specs.Prelude.{IfSome};
    ghost use Rattle.run_styles.specs.Runs.{RunCapacity};
    ghost use Rattle.decorations.specs.Slots.{slot_capacity, AreSpare};

    ghost Value = { RunCapacity };

    ghost view = { λ s. slot_capacity s.runs };

    ghost invariant = { λ s. IfSome s.runs AreSpare };
}

impl<P: Place> SpareRuns<P> {
    /// Returns no runs. Allocates nothing.
    pub(crate) fn new() -> Self
        ensures { result ≡ no_runs }
    {
        SpareRuns { runs: None }
    }

    /// Makes room for what a first fill brings: the filled places, and those before and behind them.
    pub(crate) fn reserve(&mut self, alloc: Global) -> Result<(), AllocError>
        ensures reserved { IsReserved (Fit 3) result self.old self.new }
        ensures grown { GrowsFor 3 self.old self.new }
    {
        if let Some(runs) = &mut self.runs {
            return runs.reserve(2);
        }
        let mut runs = RunStyles::new(alloc, 0)?;
        runs.reserve(2)?;
        self.runs = Some(runs);
        Ok(())
    }

    /// Takes the runs out, with `size` places of value 0. They must be there, with room for a first fill.
    pub(crate) fn take(&mut self, size: usize) -> RunStyles<P, u32>
        requires fits { size ≤ P.GREATEST }
        requires room { Fit 3 self.old }
        ensures taken { result ≡ runs 0 (replicate size 0) self.old }
        ensures none { self.new ≡ no_runs }
    {
        let Some(mut runs) = self.runs.take() else {
            unreachable!()
        };
        runs.insert_space(0, size);
        runs
    }
}
