// The calls that have the record. A refused call leaves the words and every buffer as they were.
ghost use Rattle.std.specs.Prelude.{◌≡◌, []};
ghost use Rattle.shape.specs.Answers.{giving};
ghost use Rattle.array_memory.specs.Memory.{Memory, with_all, with_cells, with_rows};
ghost use Rattle.cycle.specs.Calls.{clear_call, program_call, commit_call, start_call, step_call};
ghost use Rattle.cycle_run.specs.Cycles.{cycle_call};
ghost use Rattle.cycle_steps.specs.Steps.{steps_call};
ghost use Rattle.record_words.specs.Words.{stored_of, on_words};
ghost use Rattle.jorivelune.specs.Numbers.{telling};

use cycle_run::run_cycle;
use cycle_steps::steps;
use parity::Shape;
use record_words::{cycle_of, store};

// Clear: cells, lines, counters, flags and totals all 0, record idle: the fresh array.
pub fn jorivelune_clear(
    words: &mut [usize; 7],
    shape: Shape,
    cells: &mut [u8],
    lines: &mut [u8],
    counters: &mut [u8],
    flags: &mut [u8],
    totals: &mut [u8],
) -> u8
    ensures { (mem : Memory) → on_words (clear_call shape) (with_all cells.old lines.old counters.old flags.old totals.old mem) words.old
        ≡ giving (telling result 0) [] (stored_of (with_all cells.new lines.new counters.new flags.new totals.new mem) words.new) }
{
    let cycle = cycle_of(words);
    store(
        words,
        cycle.clear(shape, cells, lines, counters, flags, totals),
    )
}

// Program: writes a row of k levels with its check cells; the record becomes idle.
pub fn jorivelune_program(
    words: &mut [usize; 7],
    shape: Shape,
    cells: &mut [u8],
    row: usize,
    levels: &[u8],
) -> u8
    ensures { (mem : Memory) → on_words (λ st. program_call shape st row levels.now) (with_cells cells.old mem) words.old
        ≡ giving (telling result 0) [] (stored_of (with_cells cells.new mem) words.new) }
{
    let cycle = cycle_of(words);
    store(words, cycle.program(shape, cells, row, levels))
}

// Commit: writes a finished row of n cells, as ask gives it; the record becomes idle.
pub fn jorivelune_commit(
    words: &mut [usize; 7],
    shape: Shape,
    cells: &mut [u8],
    row: usize,
    finished: &[u8],
) -> u8
    ensures { (mem : Memory) → on_words (λ st. commit_call shape st row finished.now) (with_cells cells.old mem) words.old
        ≡ giving (telling result 0) [] (stored_of (with_cells cells.new mem) words.new) }
{
    let cycle = cycle_of(words);
    store(words, cycle.commit(shape, cells, row, finished))
}

// Start: counters, flags and totals 0, record open, count 0, its opening next, also when a cycle was open. The cycle skips a
// number of low digits: 0 for the whole cycle.
pub fn jorivelune_start(
    words: &mut [usize; 7],
    shape: Shape,
    skip: usize,
    counters: &mut [u8],
    flags: &mut [u8],
    totals: &mut [u8],
) -> u8
    ensures { (mem : Memory) → on_words (λ st. start_call shape st skip) (with_rows counters.old flags.old totals.old mem) words.old
        ≡ giving (telling result 0) [] (stored_of (with_rows counters.new flags.new totals.new mem) words.new) }
{
    let cycle = cycle_of(words);
    store(words, cycle.start(shape, skip, counters, flags, totals))
}

// Step: makes the next lookup of the schedule, an opening or a test, and writes the match bytes; where it looks for rows to
// flag, counts the blocks' totals anew.
pub fn jorivelune_step(
    words: &mut [usize; 7],
    shape: Shape,
    cells: &[u8],
    lines: &[u8],
    counters: &mut [u8],
    flags: &mut [u8],
    totals: &mut [u8],
    matches: &mut [u8],
) -> u8
    ensures { (mem : Memory) → on_words (λ st. step_call shape st matches.old)
        (with_all cells.now lines.now counters.old flags.old totals.old mem) words.old
        ≡ giving (telling result 0) matches.new (stored_of (with_all cells.now lines.now counters.new flags.new totals.new mem) words.new) }
{
    let cycle = cycle_of(words);
    store(
        words,
        cycle.step(shape, cells, lines, counters, flags, totals, matches),
    )
}

// Steps: at most so many of the open cycle, one after the other, up to its end. The match bytes are those of the last one.
pub fn jorivelune_steps(
    words: &mut [usize; 7],
    shape: Shape,
    most: usize,
    cells: &[u8],
    lines: &[u8],
    counters: &mut [u8],
    flags: &mut [u8],
    totals: &mut [u8],
    matches: &mut [u8],
) -> u8
    ensures { (mem : Memory) → on_words (λ st. steps_call shape st most matches.old)
        (with_all cells.now lines.now counters.old flags.old totals.old mem) words.old
        ≡ giving (telling result 0) matches.new (stored_of (with_all cells.now lines.now counters.new flags.new totals.new mem) words.new) }
{
    let cycle = cycle_of(words);
    store(
        words,
        steps(
            cycle, shape, most, cells, lines, counters, flags, totals, matches,
        ),
    )
}

// One whole cycle: a start and all its steps.
pub fn jorivelune_run(
    words: &mut [usize; 7],
    shape: Shape,
    skip: usize,
    cells: &[u8],
    lines: &[u8],
    counters: &mut [u8],
    flags: &mut [u8],
    totals: &mut [u8],
    matches: &mut [u8],
) -> u8
    ensures { (mem : Memory) → on_words (λ st. cycle_call shape st skip matches.old)
        (with_all cells.now lines.now counters.old flags.old totals.old mem) words.old
        ≡ giving (telling result 0) matches.new (stored_of (with_all cells.now lines.now counters.new flags.new totals.new mem) words.new) }
{
    let cycle = cycle_of(words);
    store(
        words,
        run_cycle(
            cycle, shape, skip, cells, lines, counters, flags, totals, matches,
        ),
    )
}
