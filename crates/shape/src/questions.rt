// Questions asked in their order, and the test of question 6.
ghost use Rattle.std.specs.Prelude.{◌≡◌, eqb};
ghost use Rattle.parity.specs.Lists.{alongside};
ghost use Rattle.parity.specs.Questions.{first_no};
ghost use Rattle.shape.specs.Answers.{answering, outcome_says};
ghost use Rattle.shape.specs.Refusals.{asked};

use super::answer::{Answer, Refusal};

// The first question that fails, of several: each is the refusal that a no gives, and whether it holds.
pub fn ask(questions: &[(Refusal, bool)]) -> Answer<()>
    ensures { outcome_says result ≡ answering 0 (first_no (asked questions.now)) 0 }
{
    for &(refusal, holds) in questions {
        refusal.unless(holds)?;
    }
    Ok(())
}

// Whether the lengths lent are those wanted: question 6.
pub fn same_lengths(lent: &[usize], wanted: &[usize]) -> bool
    ensures { result ≡ alongside eqb lent.now wanted.now }
{
    lent == wanted
}
