// What the panel shows of the flagged rows: their number and the first of them, from the blocks' totals and one block of
// flags at most. Below the call stands its act (`panel_lent`): what the call does where its questions have been passed.
#![tactic(auto)]

pub mod questions;

ghost use Rattle.std.specs.Prelude.{◌≡◌, [], ◌∷◌, ◌≤◌, length};
ghost use Rattle.shape.specs.Answers.{accepted};
ghost use Rattle.shape.specs.Shapes.{Passed};
ghost use Rattle.array_memory.specs.Memory.{Memory, with_flagged};
ghost use Rattle.panel.specs.Panel.{panel_questions, panel_call};
ghost use Rattle.panel.specs.Answers.{summary_says, panel_says};
ghost use Rattle.panel.specs.Reads.{summed, searched};

use array_memory::blocks::{BLOCK, block_end};
use parity::Shape;
use questions::check_panel;
use shape::answer::Answer;
use shape::sizes::Sizes;

// The panel's answer.
#[derive(Clone, Copy)]
pub struct Summary {
    pub total: usize,
    // the first flagged row
    pub first: Option<usize>,
    // how many flags were read
    pub read: usize,
}

// What all the totals tell: their sum, and the first block whose total isn't 0, or the number of blocks.
#[derive(Clone, Copy)]
struct Totals {
    sum: usize,
    block: usize,
}

// Reads each total once.
fn sum_totals(totals: &[u8]) -> Totals
    requires { length totals.now ≤ 64 }
    ensures { result ≡ summed totals.now }
{
    let mut sum: usize = 0;
    let mut block: usize = 0;
    for &total in totals {
        sum += usize::from(total);
        // as long as the sum is 0, so is every total
        if sum == 0 {
            block += 1;
        }
    }
    Totals { sum, block }
}

// Reads flags up to the first that isn't 0, and counts each as it is read: how many that were where one was found, and where none
// was.
fn search_block(flags: &[u8]) -> Result<usize, usize>
    ensures { result ≡ searched flags.now }
{
    let mut read: usize = 0;
    for &flag in flags {
        read += 1;
        if flag != 0 {
            return Ok(read);
        }
    }
    Err(read)
}

// A panel call whose questions have been passed. Only the first block whose total isn't 0 is lent to the search.
pub fn panel_lent(shape: Shape, sizes: Sizes, flags: &[u8], totals: &[u8]) -> Summary
    requires { Passed (panel_questions shape (length flags.now ∷ length totals.now ∷ [])) shape sizes }
    ensures { (mem : Memory) → panel_call shape (with_flagged flags.now totals.now mem) ≡ accepted (summary_says result) }
{
    let all = sum_totals(totals);
    let total = all.sum;
    if totals.len() <= all.block {
        return Summary {
            total,
            first: None,
            read: 0,
        };
    }
    let start = all.block * BLOCK;
    let end = block_end(start, flags.len());
    match search_block(&flags[start..end]) {
        Err(read) => Summary {
            total,
            first: None,
            read,
        },
        Ok(read) => Summary {
            total,
            first: Some(start + read - 1),
            read,
        },
    }
}

// The panel call: the grand total, the first flagged row or none, and how many flags were read.
pub fn panel(shape: Shape, flags: &[u8], totals: &[u8]) -> Answer<Summary>
    ensures { (mem : Memory) → panel_call shape (with_flagged flags.now totals.now mem) ≡ panel_says result }
{
    let sizes = check_panel(shape, flags.len(), totals.len())?;
    Ok(panel_lent(shape, sizes, flags, totals))
}
