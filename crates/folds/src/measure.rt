// What a table measures: algebras whose value of every table is known in the sheet's own terms.
ghost use Rattle.std.specs.Prelude.{◌≡◌, length};
ghost use Rattle.tables.specs.Trees.{Sheet};
ghost use Rattle.folds.specs.Folds.{spared, fold_leaves, Exact, Measures};

use crate::algebra::Algebra;
use crate::folding::fold;
use faults::Fault;
use tables::Row;

pub trait Measure: Algebra {
    ghost of_sheet: { Sheet → Self.Value };

    // Working a table out in the algebra comes to just this.
    ghost exact: { Exact Self.sums Self.rest of_sheet };

    final fn measure(
        &self,
        rows: &[Row],
        points: usize,
        slots: &mut [Self::Value],
    ) -> Result<Self::Value, Fault>
        ensures value { (result, spared (length rows.now) result slots.new) ≡ fold_leaves Self.sums Self.rest points rows.now slots.old }
        ensures exact { Measures of_sheet points rows.now (length slots.old) result }
    {
        fold(rows, points, self, slots)
    }
}
