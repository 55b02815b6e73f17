// The call that a caller makes before he lends anything.
ghost use Rattle.std.specs.Prelude.{◌≡◌};
ghost use Rattle.cycle_sizes.specs.Sizes.{sizes_call};
ghost use Rattle.jorivelune.specs.Numbers.{telling, measured};

use cycle_sizes::sizes;
use parity::Shape;

// Sizes: q, r, n, m × n, the blocks of rows, and the steps of a cycle that skips so many low digits; all six are 0 where the call
// is refused.
pub fn jorivelune_sizes(
    shape: Shape,
    skip: usize,
    levels: &mut usize,
    checks: &mut usize,
    columns: &mut usize,
    cells: &mut usize,
    blocks: &mut usize,
    steps: &mut usize,
) -> u8
    ensures { sizes_call shape skip
        ≡ telling result (measured levels.new checks.new columns.new cells.new blocks.new steps.new) }
{
    match sizes(shape, skip) {
        Ok(told) => {
            *levels = told.sizes.levels;
            *checks = told.sizes.checks;
            *columns = told.sizes.columns;
            *cells = told.sizes.cells;
            *blocks = told.blocks;
            *steps = told.steps;
            0
        }
        Err(refusal) => {
            *levels = 0;
            *checks = 0;
            *columns = 0;
            *cells = 0;
            *blocks = 0;
            *steps = 0;
            refusal.number()
        }
    }
}
