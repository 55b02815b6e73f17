// The fields of a job and its questions.
ghost use Rattle.std.specs.Prelude.{◌≡◌, ◌+◌, ◌≤◌, ◌<◌, length};
ghost use Rattle.parity.specs.Questions.{first_no};
ghost use Rattle.shape.specs.Answers.{answering, outcome_says};
ghost use Rattle.shape.specs.Shapes.{checked_says, sizes_if};
ghost use Rattle.job_parse.specs.Parse.{two_at, job_shape, drift_count, drift_start};
ghost use Rattle.job_parse.specs.Parse.{frame_questions, contents_questions, drift_questions, job_refusal};
ghost use Rattle.job_parse.specs.Framed.{Framed};

use super::{MAX_BYTES, MAX_CELLS};
use parity::Shape;
use shape::answer::{Answer, Refusal};
use shape::byte::all_below;
use shape::sizes::{Sizes, check_shape};

// Two bytes, big-endian.
pub fn two_at(input: &[u8], at: usize) -> usize
    requires { at + 1 < length input.now }
    ensures { result ≡ two_at input.now at }
{
    usize::from(input[at]) * 256 + usize::from(input[at + 1])
}

// Questions 10, 11 and 12.
fn check_frame(input: &[u8]) -> Answer<()>
    ensures { outcome_says result ≡ answering 0 (first_no (frame_questions input.now)) 0 }
{
    Refusal::JobSize.unless(input.len() <= MAX_BYTES)?;
    Refusal::JobVersion.unless(input.first() == Some(&1))?;
    // five bytes, and then as many as they say: the fields take at least 8
    let framed = input.len() >= 13
        && two_at(input, 1) * 65536 + two_at(input, 3) == input.len() - 5;
    Refusal::JobLength.unless(framed)
}

pub fn shape_of(input: &[u8]) -> Shape
    requires { 13 ≤ length input.now }
    ensures { result ≡ job_shape input.now }
{
    Shape {
        radix: usize::from(input[5]),
        digits: usize::from(input[6]),
        errors: usize::from(input[7]),
        width: usize::from(input[8]),
        rows: two_at(input, 9),
    }
}

// Questions 13 and 14, and 8 on all levels.
fn check_contents(input: &[u8], shape: Shape, sizes: Sizes) -> Answer<()>
    requires { Framed input.now shape sizes }
    ensures { outcome_says result ≡ answering 0 (first_no (contents_questions input.now)) 0 }
{
    Refusal::JobCells.unless(sizes.cells <= MAX_CELLS)?;
    let end = 11 + shape.rows * shape.width;
    let rest = input.len() - 5;
    let whole = rest >= end - 3 && rest == end - 3 + 4 * two_at(input, end);
    Refusal::JobFields.unless(whole)?;
    Refusal::Level.unless(all_below(&input[11..end], sizes.levels))
}

// 7 and then 8 for each drift in turn.
fn check_drifts(input: &[u8], shape: Shape, sizes: Sizes) -> Answer<()>
    requires framed { Framed input.now shape sizes }
    requires input_len { length input.now ≡ drift_start input.now (drift_count input.now) }
    ensures { outcome_says result ≡ answering 0 (first_no (drift_questions input.now)) 0 }
{
    let rows = shape.rows;
    let columns = sizes.columns;
    let levels = sizes.levels;
    // two bytes with their number, and then the drifts
    let start = 13 + rows * shape.width;
    let count = two_at(input, start - 2);
    for i in 0..count {
        let at = start + 4 * i;
        if rows <= two_at(input, at) {
            return Err(Refusal::Place);
        }
        if columns <= usize::from(input[at + 2]) {
            return Err(Refusal::Place);
        }
        if levels <= usize::from(input[at + 3]) {
            return Err(Refusal::Level);
        }
    }
    Ok(())
}

// All the questions of a job, with its sizes where none fails.
pub fn check_job(input: &[u8]) -> Answer<Sizes>
    ensures { checked_says result ≡ sizes_if (job_refusal input.now) (job_shape input.now) }
{
    check_frame(input)?;
    let shape = shape_of(input);
    let sizes = check_shape(shape)?;
    check_contents(input, shape, sizes)?;
    check_drifts(input, shape, sizes)?;
    Ok(sizes)
}
