// The router's calls: belt rules as ranges of values. A refused call leaves the words and every buffer as they were.
ghost use Rattle.std.specs.Prelude.{◌≡◌, []};
ghost use Rattle.shape.specs.Answers.{giving};
ghost use Rattle.array_memory.specs.Memory.{Memory, with_array, with_cells};
ghost use Rattle.router_ranges.specs.Ranges.{ranges_of, rule_of};
ghost use Rattle.router.specs.Calls.{rule_call, rule_at_call};
ghost use Rattle.router.specs.Routes.{route_call};
ghost use Rattle.jorivelune.specs.Numbers.{telling};
ghost use Rattle.jorivelune.specs.Routes.{stored_router, on_router, sent, sent_says};

use super::cells::tell;
use parity::Shape;
use record_words::{cycle_of, store};
use router::read::rule_at;
use router::route::route;
use router::rule::rule;

// Rule: a row becomes a rule, by its ranges and its belt; the record becomes idle.
pub fn jorivelune_rule(
    words: &mut [usize; 7],
    shape: Shape,
    cells: &mut [u8],
    belts: &mut [u8],
    row: usize,
    lows: &[u8],
    highs: &[u8],
    belt: u8,
) -> u8
    ensures { (mem : Memory)
        → on_router (λ st. rule_call shape st row (rule_of lows.now highs.now belt)) (with_cells cells.old mem) words.old belts.old
        ≡ giving (telling result 0) [] (stored_router (with_cells cells.new mem) words.new belts.new) }
{
    let cycle = cycle_of(words);
    store(
        words,
        rule(cycle, shape, cells, belts, row, lows, highs, belt),
    )
}

// Route: the first row whose rule holds the bottle goes to `found`, m where there is none, and its belt to `belt`, 0 where there is
// none; both are 0 where the call is refused.
pub fn jorivelune_route(
    shape: Shape,
    cells: &[u8],
    lines: &[u8],
    belts: &[u8],
    values: &[u8],
    found: &mut usize,
    belt: &mut u8,
) -> u8
    ensures { (mem : Memory) → sent_says shape.rows (route_call shape (with_array cells.now lines.now mem) belts.now values.now)
        ≡ telling result (sent found.new belt.new) }
{
    match route(shape, cells, lines, belts, values) {
        Ok(Some(sent)) => {
            *found = sent.row;
            *belt = sent.belt;
            0
        }
        Ok(None) => {
            *found = shape.rows;
            *belt = 0;
            0
        }
        Err(refusal) => {
            *found = 0;
            *belt = 0;
            refusal.number()
        }
    }
}

// Rule at: the ranges that stand in a row go to `lows` and `highs`, and its belt to `belt`, 0 where the call is refused.
pub fn jorivelune_rule_at(
    shape: Shape,
    cells: &[u8],
    belts: &[u8],
    row: usize,
    lows: &mut [u8],
    highs: &mut [u8],
    belt: &mut u8,
) -> u8
    ensures { (mem : Memory) → rule_at_call shape (with_cells cells.now mem) belts.now row (ranges_of lows.old highs.old)
        ≡ giving (telling result belt.new) [] (ranges_of lows.new highs.new) }
{
    tell(rule_at(shape, cells, belts, row, lows, highs), 0, belt)
}
