// What refuses two tables and a row: a pass, a settling, the question who is ahead.
ghost use Rattle.std.specs.Prelude.{◌≡◌, not, [], ◌∷◌, IfOk};
ghost use Rattle.paper.specs.Words.{table_of};
ghost use Rattle.paper.specs.Check.{check_of};
ghost use Rattle.paper.specs.Refusals.{number_in, first, when, tens};
ghost use Rattle.paper.specs.Calls.{two_refused, pass_refused, settle_refused, ahead_refused, ruling_here, is_folder, conflicts, choice_named};
ghost use Rattle.paper.specs.Named.{choice_number};
ghost use Rattle.paper.specs.Acts.{choice_takes};
ghost use Rattle.paper.specs.Widths.{check_any, two_widths, width_of, two_refused_any, pass_refused_any, settle_refused_any, ahead_refused_any};
ghost use Rattle.vector.specs.Wideness.{columns_in};

use crate::{content_refused, counter_refused};
use paper::{Choice, Content, Refusal, Ruling};
use table::check::check;
use table::head::clock_of;
use two::later::names_later;
use two::shape::same_shape;
use vector::head::Head;
use vector::row::{Columns, Row};
use vector::width::Width;
use verdict::ruling::ruling_at;

// 11 to 13 of a target; where nothing refuses, its width.
#[tactic(auto, unfolding(paper::specs::Refusals::tens))]
fn target_width(target: &[u32]) -> Result<Columns, Refusal>
    ensures number { number_in result ≡ tens (check_any target.now) }
    ensures width { IfOk result (λ c. columns_in c ≡ width_of target.now) }
{
    check(target).map_err(Refusal::Target)
}

// 1 to 3 of the source, 11 to 13 of the target, 19 where their widths differ; where nothing refuses, their one width.
#[tactic(auto, unfolding(paper::specs::Widths::two_widths), using(crate::proofs::FirstRefused::refusals))]
pub fn one_width(source: &[u32], target: &[u32]) -> Result<Columns, Refusal>
    ensures number { number_in result ≡ two_widths source.now target.now }
    ensures width { IfOk result (λ c. columns_in c ≡ width_of target.now) }
    ensures checked { IfOk result (λ c. (check_of (columns_in c) source.now ≡ 0) × (check_of (columns_in c) target.now ≡ 0)) }
{
    let columns = check(source)?;
    let other = target_width(target)?;
    match (columns, other) {
        (Columns::Eight(w), Columns::Eight(_)) => Ok(Columns::Eight(w)),
        (Columns::Sixteen(w), Columns::Sixteen(_)) => Ok(Columns::Sixteen(w)),
        _ => Err(Refusal::Width),
    }
}

// 4 to 8, for tables that pass the check.
pub(crate) fn two_refused_at<const N: usize>(
    source: &[u32],
    target: &[u32],
    row: u32,
    w: Width<N>,
) -> Result<(), Refusal>
    requires { (check_of N source.now ≡ 0) × (check_of N target.now ≡ 0) }
    ensures { number_in result ≡ two_refused N source.now target.now row }
{
    if !same_shape(source, target, w) {
        return Err(Refusal::PlacesDiffer);
    }
    let a = clock_of(source);
    let b = clock_of(target);
    if a.device == b.device {
        return Err(Refusal::OneDevice);
    }
    if names_later(source, b, w) {
        return Err(Refusal::SourceAhead);
    }
    if names_later(target, a, w) {
        return Err(Refusal::TargetAhead);
    }
    if target[Head::ROWS] <= row {
        return Err(Refusal::NoSuchRow);
    }
    Ok(())
}

// The first refusal of two tables of any width and a row: 1 to 3, 11 to 13, 19, 4 to 8; where nothing refuses, their width.
#[tactic(auto, unfolding(paper::specs::Widths::widths_then), using(crate::proofs::FirstRefused::refusals))]
pub fn two_refused(source: &[u32], target: &[u32], row: u32) -> Result<Columns, Refusal>
    ensures number { number_in result ≡ two_refused_any source.now target.now row }
    ensures width { IfOk result (λ c. columns_in c ≡ width_of target.now) }
{
    let columns = one_width(source, target)?;
    match columns {
        Columns::Eight(w) => two_refused_at(source, target, row, w)?,
        Columns::Sixteen(w) => two_refused_at(source, target, row, w)?,
    }
    Ok(columns)
}

// Of a pass: those of two tables and a row, then 9.
#[tactic(auto, unfolding(paper::specs::Calls::pass_refused), using(crate::proofs::FirstRefused::refusals))]
fn pass_refused_at<const N: usize>(
    source: &[u32],
    target: &[u32],
    row: u32,
    answers: &[u32],
    w: Width<N>,
) -> Result<(), Refusal>
    requires { (check_of N source.now ≡ 0) × (check_of N target.now ≡ 0) }
    ensures { number_in result ≡ pass_refused N source.now target.now row answers.now }
{
    two_refused_at(source, target, row, w)?;
    let at = (row as usize + 1) * (Row::FLOOR + 4 * N);
    if answers.len() != target[at + Row::SIZE] as usize {
        return Err(Refusal::WrongLength);
    }
    Ok(())
}

// So of a pass of tables of any width.
#[tactic(auto, unfolding(paper::specs::Widths::widths_then), using(crate::proofs::FirstRefused::refusals))]
pub fn pass_refused(
    source: &[u32],
    target: &[u32],
    row: u32,
    answers: &[u32],
) -> Result<Columns, Refusal>
    ensures number { number_in result ≡ pass_refused_any source.now target.now row answers.now }
    ensures width { IfOk result (λ c. columns_in c ≡ width_of target.now) }
{
    let columns = one_width(source, target)?;
    match columns {
        Columns::Eight(w) => pass_refused_at(source, target, row, answers, w)?,
        Columns::Sixteen(w) => pass_refused_at(source, target, row, answers, w)?,
    }
    Ok(columns)
}

// 10 where the row is a folder, 14 where the rules say no conflict.
#[tactic(auto, unfolding(paper::specs::Refusals::first, paper::specs::Refusals::when))]
fn conflict_refused<const N: usize>(
    source: &[u32],
    target: &[u32],
    row: u32,
    w: Width<N>,
) -> Result<(), Refusal>
    requires { two_refused N source.now target.now row ≡ 0 }
    ensures { let said = ruling_here (table_of N source.now) (table_of N target.now) row in
        number_in result ≡ first (when (is_folder said) 10 ∷ when (not (conflicts said)) 14 ∷ []) }
{
    match ruling_at(source, target, row as usize, w) {
        None => Err(Refusal::Unfit),
        Some(Ruling::Conflict) => Ok(()),
        Some(_) => Err(Refusal::NoConflict),
    }
}

// Whether the choice of this number takes the content that is handed in: new where it is neither 1 nor 2.
#[tactic(auto, unfolding(paper::specs::Calls::choice_named))]
pub fn choice_takes(choice: u32) -> bool
    ensures { result ≡ choice_takes (choice_named choice) }
{
    match choice {
        1 => Choice::Theirs.takes_content(),
        2 => Choice::Own.takes_content(),
        _ => Choice::New.takes_content(),
    }
}

// As a pass up to 8, then 16, 21, 22, 10, 14, 15; where nothing refuses, the choice.
#[tactic(auto, unfolding(paper::specs::Calls::settle_refused), using(crate::proofs::FirstRefused::refusals))]
fn settle_refused_at<const N: usize>(
    source: &[u32],
    target: &[u32],
    row: u32,
    choice: u32,
    content: Content,
    w: Width<N>,
) -> Result<Choice, Refusal>
    requires { (check_of N source.now ≡ 0) × (check_of N target.now ≡ 0) }
    ensures number { number_in result ≡ settle_refused N source.now target.now row choice content }
    ensures named { IfOk result (λ c. choice ≡ choice_number c) }
{
    two_refused_at(source, target, row, w)?;
    let named = Choice::try_from(choice)?;
    content_refused(named.takes_content(), content)?;
    conflict_refused(source, target, row, w)?;
    counter_refused(target)?;
    Ok(named)
}

// So of a settling, whose choice is any number: 16 has its place in the order; where nothing refuses, the width and the choice.
#[tactic(auto, unfolding(paper::specs::Widths::widths_then), using(crate::proofs::FirstRefused::refusals))]
pub fn settle_refused(
    source: &[u32],
    target: &[u32],
    row: u32,
    choice: u32,
    content: Content,
) -> Result<(Columns, Choice), Refusal>
    ensures number { number_in result ≡ settle_refused_any source.now target.now row choice content }
    ensures width { IfOk result (λ r. columns_in r.0 ≡ width_of target.now) }
    ensures named { IfOk result (λ r. choice ≡ choice_number r.1) }
{
    let columns = one_width(source, target)?;
    let named = match columns {
        Columns::Eight(w) => settle_refused_at(source, target, row, choice, content, w)?,
        Columns::Sixteen(w) => settle_refused_at(source, target, row, choice, content, w)?,
    };
    Ok((columns, named))
}

// As a settling, without 16, 21, 22 and 15: then a mask for each side can be told.
#[tactic(auto, unfolding(paper::specs::Calls::ahead_refused), using(crate::proofs::FirstRefused::refusals))]
fn ahead_refused_at<const N: usize>(
    source: &[u32],
    target: &[u32],
    row: u32,
    w: Width<N>,
) -> Result<(), Refusal>
    requires { (check_of N source.now ≡ 0) × (check_of N target.now ≡ 0) }
    ensures { number_in result ≡ ahead_refused N source.now target.now row }
{
    two_refused_at(source, target, row, w)?;
    conflict_refused(source, target, row, w)
}

// So of the question who is ahead.
#[tactic(auto, unfolding(paper::specs::Widths::widths_then), using(crate::proofs::FirstRefused::refusals))]
pub fn ahead_refused(source: &[u32], target: &[u32], row: u32) -> Result<Columns, Refusal>
    ensures number { number_in result ≡ ahead_refused_any source.now target.now row }
    ensures width { IfOk result (λ c. columns_in c ≡ width_of target.now) }
{
    let columns = one_width(source, target)?;
    match columns {
        Columns::Eight(w) => ahead_refused_at(source, target, row, w)?,
        Columns::Sixteen(w) => ahead_refused_at(source, target, row, w)?,
    }
    Ok(columns)
}
