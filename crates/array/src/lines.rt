// Line: one row's match line becomes sound, 0, dead, 1, or shorted, 2, and nothing else changes.
ghost use Rattle.std.specs.Prelude.{◌≡◌, [], length};
ghost use Rattle.shape.specs.Answers.{accepted, outcome_says, giving};
ghost use Rattle.shape.specs.Shapes.{Passed};
ghost use Rattle.array_memory.specs.Memory.{Memory, with_lines};
ghost use Rattle.array_questions.specs.Questions.{lines_questions, line_arguments};
ghost use Rattle.array.specs.Calls.{line_call};

use array_questions::check_line;
use parity::Shape;
use shape::answer::Answer;
use shape::sizes::Sizes;

pub fn line_lent(shape: Shape, sizes: Sizes, lines: &mut [u8], row: usize, byte: u8)
    requires { Passed (lines_questions shape (length lines.old) (line_arguments shape row byte)) shape sizes }
    ensures { (mem : Memory) → line_call shape (with_lines lines.old mem) row byte ≡ giving (accepted 0) [] (with_lines lines.new mem) }
{
    lines[row] = byte;
}

pub fn set_line(shape: Shape, lines: &mut [u8], row: usize, byte: u8) -> Answer<()>
    ensures { (mem : Memory) → line_call shape (with_lines lines.old mem) row byte ≡ giving (outcome_says result) [] (with_lines lines.new mem) }
{
    let sizes = check_line(shape, lines.len(), row, byte)?;
    line_lent(shape, sizes, lines, row, byte);
    Ok(())
}
