// Refusal 3 at one row: the rules of the layout and the times for a sheet, and of the layout and the summaries for a folder.

#![tactic(auto)]

pub mod either;

ghost use Rattle.std.specs.Prelude.{◌≡◌, true, ◌&&◌, eqb, ◌≤◌, ◌<◌, length};
ghost use Rattle.paper.specs.Columns.{vec, full, covers};
ghost use Rattle.paper.specs.Words.{wide, floor_at, row_of, floor_of};
ghost use Rattle.paper.specs.Check.{proper, absent, content_fits, content_absent, laid, known, sheet_fits, summed};
ghost use Rattle.summary.specs.Sums.{said};
ghost use Rattle.layout.specs.FolderSums.{folder_by};

use paper::{Clock, Content, Stamp};
use summary::Summary;
use vector::above::Above;
use vector::row::Row;
use vector::width::Width;
use vector::{Vector, is_blank};

// In a stamp or birth the device is a column and the count at least 1.
#[tactic(auto, unfolding(paper::specs::Check::proper))]
fn is_proper<const N: usize>(s: Stamp, w: Width<N>) -> bool
    ensures { result ≡ proper N s }
{
    (s.device as usize) < N && 0 < s.count
}

// It is the stamp of no event.
#[tactic(auto, unfolding(paper::specs::Check::absent))]
fn is_absent(s: Stamp) -> bool
    ensures { result ≡ absent s }
{
    s == Stamp::empty()
}

// A row's stamp.
fn stamp_of(r: &[u32]) -> Stamp
    requires { floor_at ≤ length r.now }
    ensures { result ≡ (row_of r.now).stamp }
{
    Stamp::of(r[Row::STAMP], r[Row::STAMP + 1])
}

// A row's birth.
fn birth_of(r: &[u32]) -> Stamp
    requires { floor_at ≤ length r.now }
    ensures { result ≡ (row_of r.now).birth }
{
    Stamp::of(r[Row::BIRTH], r[Row::BIRTH + 1])
}

// A row's content.
fn content_of(r: &[u32]) -> Content
    requires { floor_at ≤ length r.now }
    ensures { result ≡ (row_of r.now).content }
{
    Content::of(r[Row::MARK], r[Row::CLASS])
}

// A live sheet may hold it.
#[tactic(auto, unfolding(paper::specs::Check::content_fits))]
fn content_fits(content: Content) -> bool
    ensures { result ≡ content_fits content }
{
    content.class <= Content::MOST_CLASS && 0 < content.mark
}

// It is no content.
#[tactic(auto, unfolding(paper::specs::Check::content_absent))]
fn is_empty(content: Content) -> bool
    ensures { result ≡ content_absent content }
{
    content == Content::none()
}

// There is no birth and no content.
fn is_unborn(r: &[u32]) -> bool
    requires { floor_at ≤ length r.now }
    ensures { result ≡ (absent (row_of r.now).birth && content_absent (row_of r.now).content) }
{
    is_absent(birth_of(r)) && is_empty(content_of(r))
}

// Stamp, birth and content are as the kind of the row says.
#[tactic(auto, unfolding(paper::specs::Check::laid, paper::specs::Words::row_of, paper::specs::Words::kind_of))]
fn is_laid<const N: usize>(r: &[u32], w: Width<N>) -> bool
    requires { floor_at ≤ length r.now }
    ensures { result ≡ laid N (row_of r.now).kind (row_of r.now) }
{
    let stamp = stamp_of(r);
    match r[Row::KIND] {
        Row::LIVE => is_proper(stamp, w)
            && is_proper(birth_of(r), w)
            && content_fits(content_of(r)),
        Row::REMOVED => is_proper(stamp, w) && is_unborn(r),
        _ => is_absent(stamp) && is_unborn(r),
    }
}

// Is the stamp or birth covered by the known time of the row r under what is above?
fn is_covered<const N: usize>(r: &[u32], above: Above, stamp: Stamp, w: Width<N>) -> bool
    requires { (wide N ≤ length r.now) × (stamp.device < N) }
    ensures { result ≡ covers (full above.clock (vec above.floors.0) (floor_of N r.now)) stamp }
{
    if stamp.device == above.clock.device {
        return stamp.count <= above.clock.counter;
    }
    let column = stamp.device as usize;
    let floors = above.floors.0;
    stamp.count <= floors[column] || stamp.count <= r[Row::FLOOR + column]
}

// The stamps of a row that is laid out as its kind says are covered by its known time under what is above.
#[tactic(auto, unfolding(paper::specs::Check::known, paper::specs::Words::row_of, paper::specs::Words::kind_of))]
fn is_known<const N: usize>(r: &[u32], above: Above, w: Width<N>) -> bool
    requires { (wide N ≤ length r.now) × (laid N (row_of r.now).kind (row_of r.now) ≡ true) × (0 < N) }
    ensures { result ≡ known (full above.clock (vec above.floors.0) (floor_of N r.now)) (row_of r.now).kind (row_of r.now) }
{
    let stamp = stamp_of(r);
    match r[Row::KIND] {
        Row::LIVE => is_covered(r, above, stamp, w) && is_covered(r, above, birth_of(r), w),
        Row::REMOVED => is_covered(r, above, stamp, w),
        _ => true,
    }
}

// The own column of a row's floor is zero.
fn is_own_zero<const N: usize>(r: &[u32], clock: Clock, w: Width<N>) -> bool
    requires { (wide N ≤ length r.now) × (clock.device < N) }
    ensures { result ≡ eqb (floor_of N r.now clock.device) 0 }
{
    let own = clock.device as usize;
    r[Row::FLOOR + own] == 0
}

// A sheet's row fits, under what is above.
#[tactic(auto, unfolding(paper::specs::Check::sheet_fits))]
pub fn sheet_fits<const N: usize>(r: &[u32], above: Above, w: Width<N>) -> bool
    requires { (length r.now ≡ wide N) × (above.clock.device < N) }
    ensures { result ≡ sheet_fits N above.clock (vec above.floors.0) r.now }
{
    is_laid(r, w)
        && is_own_zero(r, above.clock, w)
        && is_blank(&r[Row::FLOOR + N..Row::FLOOR + 4 * N])
        && is_known(r, above, w)
}

// The summaries in a folder's row are these.
fn is_summed<const N: usize>(r: &[u32], own: Summary, w: Width<N>) -> bool
    requires { wide N ≤ length r.now }
    ensures { result ≡ summed N r.now (vec own.newest.0) (vec own.least.0) (vec own.most.0) }
{
    let said = Summary::of_folder(r, N);
    said.newest.same(own.newest, N) && said.least.same(own.least, N) && said.most.same(own.most, N)
}

// A folder's row fits, whose children come to `under`.
#[tactic(auto, unfolding(crate::specs::FolderSums::folder_by))]
pub fn folder_fits<const N: usize>(
    r: &[u32],
    clock: Clock,
    under: Option<Summary>,
    w: Width<N>,
) -> bool
    requires { (length r.now ≡ wide N) × (clock.device < N) }
    ensures { result ≡ folder_by N clock r.now (said under) }
{
    is_blank(&r[Row::STAMP..Row::FLOOR])
        && is_own_zero(r, clock, w)
        && is_summed(r, Summary::under(under, Vector::read(r, Row::FLOOR, N)), w)
}
