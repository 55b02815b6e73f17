// The lookup of an opening.
ghost use Rattle.std.specs.Prelude.{◌≡◌, ◌≤◌, length};
ghost use Rattle.parity.specs.Questions.{Taken};
ghost use Rattle.parity.specs.declared.Shape.{Shape as ShapeOf};
ghost use Rattle.array_memory.specs.Lengths.{Sized};
ghost use Rattle.array_memory.specs.Memory.{Memory, with_flagged, with_lines};
ghost use Rattle.cycle_lookup.specs.Lookup.{entry_matches, looked_up};
ghost use Rattle.cycle_lookup.specs.Rows.{opening_of, FlagsLent};

use cycle_passes::rows::{flag_rows, match_lines};
use cycle_passes::totals::total_blocks;

// Every cell answers 1 to the input 0 of the first opening, and 0 to the input q of the second, so what a row gives is told by its
// line: no cell is looked at. Rows that do not give the byte of a sound line are flagged, and the blocks' totals counted anew; the
// counters are not even lent.
pub fn make_opening(byte: u8, lines: &[u8], flags: &mut [u8], totals: &mut [u8], matches: &mut [u8])
    requires byte_bound { byte ≤ 1 }
    requires flags_lent { FlagsLent (length lines.now) (length flags.old) (length totals.old) (length matches.old) }
    ensures matched { (s : ShapeOf) → Taken s → (mem : Memory) → Sized s (with_lines lines.now mem)
        → entry_matches s (opening_of s byte) (with_lines lines.now mem) ≡ matches.new }
    ensures opened { (s : ShapeOf) → Taken s → (mem : Memory) → Sized s (with_lines lines.now (with_flagged flags.old totals.old mem))
        → looked_up s (opening_of s byte) (with_lines lines.now (with_flagged flags.old totals.old mem))
        ≡ with_lines lines.now (with_flagged flags.new totals.new mem) }
{
    match_lines(lines, byte, matches);
    flag_rows(matches, byte, flags);
    total_blocks(flags, totals);
}
