// The panel call.
ghost use Rattle.std.specs.Prelude.{◌≡◌};
ghost use Rattle.array_memory.specs.Memory.{Memory, with_flagged};
ghost use Rattle.panel.specs.Panel.{panel_call};
ghost use Rattle.jorivelune.specs.Numbers.{telling, shown, reading_says};

use panel::panel;
use parity::Shape;

// Panel: the sum of the totals goes to `total`, the first flagged row to `first`, m where there is none, and the number of
// flags that were read to `read`; all three are 0 where the call is refused.
pub fn jorivelune_panel(
    shape: Shape,
    flags: &[u8],
    totals: &[u8],
    total: &mut usize,
    first: &mut usize,
    read: &mut usize,
) -> u8
    ensures { (mem : Memory) → reading_says shape.rows (panel_call shape (with_flagged flags.now totals.now mem))
        ≡ telling result (shown total.new first.new read.new) }
{
    match panel(shape, flags, totals) {
        Ok(told) => {
            *total = told.total;
            *first = told.first.unwrap_or(shape.rows);
            *read = told.read;
            0
        }
        Err(refusal) => {
            *total = 0;
            *first = 0;
            *read = 0;
            refusal.number()
        }
    }
}
