//! Two times four feedback paths side by side: while one set of vectors waits for its chain of table and products the other goes on.
ghost use Rattle.std.specs.Prelude.{◌≡◌};
ghost use Rattle.operator_kernel.specs.Quartets.{AreLive, AreLanesRun};

use crate::FeedbackPath;
use crate::quartet::{begin, later, samples};
use dx_tables::Tables;

/// Runs four paths and four others.
pub(crate) fn run_quartets(
    tables: &Tables,
    low: &[FeedbackPath; 4],
    high: &[FeedbackPath; 4],
    low_rows: &mut [[i32; 4]; 64],
    high_rows: &mut [[i32; 4]; 64],
) -> ([i32; 4], [i32; 4], [i32; 4], [i32; 4])
    requires low { AreLive low.now }
    requires high { AreLive high.now }
    ensures low { AreLanesRun low.now low_rows.new result.0 result.1 }
    ensures high { AreLanesRun high.now high_rows.new result.2 result.3 }
{
    let pairs = tables.sine_pairs();
    let low = *low;
    let high = *high;
    let mut at_low = begin(&low);
    let mut at_high = begin(&high);
    for j in 0..64usize {
        let y = samples(pairs, &low, at_low);
        let z = samples(pairs, &high, at_high);
        low_rows[j] = y.to_array();
        high_rows[j] = z.to_array();
        at_low = later(&low, at_low, y);
        at_high = later(&high, at_high, z);
    }
    (
        at_low.before_last.to_array(),
        at_low.last.to_array(),
        at_high.before_last.to_array(),
        at_high.last.to_array(),
    )
}
