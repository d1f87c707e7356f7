// A pass: for each sheet of a subtree what the target must do, and its times brought up to date.
ghost use Rattle.std.specs.Prelude.{◌≡◌};
ghost use Rattle.paper.specs.Calls.{passed, answer_of};
ghost use Rattle.paper.specs.Widths.{pass_any};

use paper::Refusal;
use pass::make_pass;
use refused::of_pair::pass_refused;
use vector::row::Columns;

// Passes the subtree of a row from a source to a target: one answer for each of its rows. The count is the rows looked at.
pub fn pass(
    source: &[u32],
    target: &mut [u32],
    row: u32,
    answers: &mut [u32],
) -> Result<u32, Refusal>
    ensures { passed (answer_of result) target.new answers.new ≡ pass_any source.now target.old row answers.old }
{
    match pass_refused(source, target, row, answers)? {
        Columns::Eight(w) => Ok(make_pass(source, target, row as usize, answers, w)),
        Columns::Sixteen(w) => Ok(make_pass(source, target, row as usize, answers, w)),
    }
}
