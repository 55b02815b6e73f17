// The record as seven words: its phase (0 idle, 1 open, 2 complete), check, digit, column, factor, count and the digits
// that it skips. Any other phase is read as idle.
#![tactic(auto)]

ghost use Rattle.std.specs.Prelude.{◌≡◌};
ghost use Rattle.shape.specs.Answers.{outcome_says};
ghost use Rattle.record_words.specs.Words.{phase_of, cycle_of, words_of, words_after};

use cycle::{Changed, Cycle, Phase};
use cycle_place::Place;

// Functions, and no `From`: record and phase are types of the crate `cycle`, which knows no words, and an array is one of std.
fn phase_of(word: usize) -> Phase
    ensures { result ≡ phase_of word }
{
    match word {
        1 => Phase::Open,
        2 => Phase::Complete,
        _ => Phase::Idle,
    }
}

pub fn cycle_of(words: &[usize; 7]) -> Cycle
    ensures { result ≡ cycle_of words.now }
{
    Cycle {
        phase: phase_of(words[0]),
        place: Place {
            check: words[1],
            digit: words[2],
            column: words[3],
            factor: words[4],
        },
        count: words[5],
        skip: words[6],
    }
}

fn words_of(cycle: Cycle) -> [usize; 7]
    ensures { result ≡ words_of cycle }
{
    let place = cycle.place;
    [
        cycle.phase as usize,
        place.check,
        place.digit,
        place.column,
        place.factor,
        cycle.count,
        cycle.skip,
    ]
}

// Stores the record of a call that was taken, and gives the call's number; a refusal leaves the words as they are.
pub fn store(words: &mut [usize; 7], changed: Changed) -> u8
    ensures answered { result ≡ (outcome_says changed.outcome).number }
    ensures recorded { words.new ≡ words_after (outcome_says changed.outcome) changed.cycle words.old }
{
    match changed.outcome {
        Err(refusal) => refusal.number(),
        Ok(()) => {
            *words = words_of(changed.cycle);
            0
        }
    }
}
