// The call that a caller makes before he lends anything.
ghost use Rattle.std.specs.Prelude.{◌≡◌};
ghost use Rattle.cycle_sizes.specs.Sizes.{sizes_call};
ghost use Rattle.jorivelune.specs.Numbers.{telling, measured};

use jorivelune::sizes;
use parity::Shape;

// Sizes: q, r, n, m × n, the blocks of rows, and the steps of a cycle that skips so many low digits; all six are 0 where the call
// is refused.
#[unsafe(no_mangle)]
pub extern "C" fn jorivelune_sizes(
    shape: Shape,
    skip: usize,
    levels: &mut usize,
    checks: &mut usize,
    columns: &mut usize,
    cells: &mut usize,
    blocks: &mut usize,
    steps: &mut usize,
) -> u8
    ensures { sizes_call shape skip
        ≡ telling result (measured levels.new checks.new columns.new cells.new blocks.new steps.new) }
{
    sizes::jorivelune_sizes(shape, skip, levels, checks, columns, cells, blocks, steps)
}
