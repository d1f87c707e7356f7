// A pass in place: the rows of a subtree walked, and the summaries above it.

#![tactic(auto)]

ghost use Rattle.std.specs.Prelude.{◌≡◌};
ghost use Rattle.paper.specs.Widths;
ghost use Rattle.paper.specs.Calls.{passed, done, pass_refused, pass_of};

use known::above_row;
use mend::rows::mend_above;
use table::head::clock_of;
use vector::above::Above;
use vector::row::Row;
use vector::width::Width;
use walk::pass_row;

// Passes the subtree of a row where nothing refuses; returns the number of rows looked at.
pub fn make_pass<const N: usize>(
    source: &[u32],
    target: &mut [u32],
    row: usize,
    answers: &mut [u32],
    w: Width<N>,
) -> u32
    requires { (pass_refused N source.now target.old row answers.old ≡ 0) × Widths.Width N }
    ensures { passed (done result) target.new answers.new ≡ pass_of N source.now target.old row answers.old }
{
    let a = clock_of(source);
    let b = clock_of(target);
    let ua = above_row(source, row, N);
    let ub = above_row(target, row, N);
    let width = Row::FLOOR + 4 * N;
    let from = (row + 1) * width;
    let end = from + answers.len() * width;
    let looked = pass_row(
        &source[from..end],
        &mut target[from..end],
        answers,
        Above {
            clock: a,
            floors: ua,
        },
        Above {
            clock: b,
            floors: ub,
        },
        N,
    );
    mend_above(&mut target[width..], row, N);
    looked as u32
}
