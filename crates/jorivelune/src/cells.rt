// The calls without the record: on cells and lines. A refused call leaves every buffer as it was.
ghost use Rattle.std.specs.Prelude.{◌≡◌, []};
ghost use Rattle.shape.specs.Answers.{says, outcome_says, giving};
ghost use Rattle.array_memory.specs.Memory.{Memory, with_array, with_cells, with_lines};
ghost use Rattle.array.specs.Calls.{ask_call, drift_call, line_call, read_call, sound_call};
ghost use Rattle.array_lookup.specs.Lookups.{lookup_call, first_call};
ghost use Rattle.jorivelune.specs.Numbers.{telling, found_says};

use array::ask::ask;
use array::cells::{read, sound};
use array::drift::drift;
use array::lines::set_line;
use array_lookup::first::first_match;
use array_lookup::task::lookup;
use parity::Shape;
use shape::answer::Answer;

fn number_of(outcome: Answer<()>) -> u8
    ensures { result ≡ (outcome_says outcome).number }
{
    match outcome {
        Ok(()) => 0,
        Err(refusal) => refusal.number(),
    }
}

// The number of an answer, whose value goes behind the pointer: where the call is refused, what stands for none.
pub(crate) fn tell<T: Copy>(answer: Answer<T>, nothing: T, value: &mut T) -> u8
    ensures numbered { result ≡ (says nothing (λ told. told) answer).number }
    ensures valued { value.new ≡ (says nothing (λ told. told) answer).value }
{
    match answer {
        Ok(told) => {
            *value = told;
            0
        }
        Err(refusal) => {
            *value = nothing;
            refusal.number()
        }
    }
}

// Drift: one cell changes to a level, and nothing else.
pub fn jorivelune_drift(shape: Shape, cells: &mut [u8], row: usize, column: usize, level: u8) -> u8
    ensures { (mem : Memory) → drift_call shape (with_cells cells.old mem) row column level
        ≡ giving (telling result 0) [] (with_cells cells.new mem) }
{
    number_of(drift(shape, cells, row, column, level))
}

// Line: one row's match line becomes sound, 0, dead, 1, or shorted, 2, and nothing else changes.
pub fn jorivelune_line(shape: Shape, lines: &mut [u8], row: usize, byte: u8) -> u8
    ensures { (mem : Memory) → line_call shape (with_lines lines.old mem) row byte
        ≡ giving (telling result 0) [] (with_lines lines.new mem) }
{
    number_of(set_line(shape, lines, row, byte))
}

// Read: copies the k rule cells of a row out.
pub fn jorivelune_read(shape: Shape, cells: &[u8], row: usize, out: &mut [u8]) -> u8
    ensures { (mem : Memory) → read_call shape (with_cells cells.now mem) row out.old
        ≡ giving (telling result 0) out.new (with_cells cells.now mem) }
{
    number_of(read(shape, cells, row, out))
}

// Ask: the finished row of these levels goes to `finished`, and the number of its cells that differ from the row as it
// stands to `changed`, 0 where the call is refused.
pub fn jorivelune_ask(
    shape: Shape,
    cells: &[u8],
    row: usize,
    levels: &[u8],
    finished: &mut [u8],
    changed: &mut usize,
) -> u8
    ensures { (mem : Memory) → ask_call shape (with_cells cells.now mem) row levels.now finished.old
        ≡ giving (telling result changed.new) finished.new (with_cells cells.now mem) }
{
    tell(ask(shape, cells, row, levels, finished), 0, changed)
}

// Task lookup, by inputs of 16 bits, since they run to q: one match byte per row; the number of matches goes to `count`, 0 where
// the call is refused.
pub fn jorivelune_lookup(
    shape: Shape,
    cells: &[u8],
    lines: &[u8],
    inputs: &[u16],
    matches: &mut [u8],
    count: &mut usize,
) -> u8
    ensures { (mem : Memory) → lookup_call shape (with_array cells.now lines.now mem) inputs.now matches.old
        ≡ giving (telling result count.new) matches.new (with_array cells.now lines.now mem) }
{
    tell(lookup(shape, cells, lines, inputs, matches), 0, count)
}

// First match, by inputs as in a task lookup: the first matching row goes to `found`, m where there is none, 0 where the call is
// refused.
pub fn jorivelune_first_match(
    shape: Shape,
    cells: &[u8],
    lines: &[u8],
    inputs: &[u16],
    found: &mut usize,
) -> u8
    ensures { (mem : Memory) → found_says shape.rows (first_call shape (with_array cells.now lines.now mem) inputs.now)
        ≡ telling result found.new }
{
    match first_match(shape, cells, lines, inputs) {
        Ok(Some(row)) => {
            *found = row;
            0
        }
        Ok(None) => {
            *found = shape.rows;
            0
        }
        Err(refusal) => {
            *found = 0;
            refusal.number()
        }
    }
}

// Sound: whether the row is sound goes to `holds`, false where the call is refused.
pub fn jorivelune_sound(shape: Shape, cells: &[u8], row: usize, holds: &mut bool) -> u8
    ensures { (mem : Memory) → sound_call shape (with_cells cells.now mem) row ≡ telling result holds.new }
{
    tell(sound(shape, cells, row), false, holds)
}
