// What refuses a new table, and one table alone: an event, a widening.
ghost use Rattle.std.specs.Prelude.{◌≡◌, ◌≤◌, cond, false, eqb, IfOk};
ghost use Rattle.paper.specs.Acts.{fits, takes_content};
ghost use Rattle.paper.specs.Words.{kind_of};
ghost use Rattle.paper.specs.Refusals.{number_in};
ghost use Rattle.paper.specs.Calls.{new_refused, event_named, event_refused};
ghost use Rattle.paper.specs.Named.{event_number};
ghost use Rattle.paper.specs.Devices.{devices};
ghost use Rattle.paper.specs.Widths;
ghost use Rattle.paper.specs.Widths.{width_of, widen_refused};
ghost use Rattle.vector.specs.Wideness.{columns_in};

use crate::{content_refused, counter_refused};
use paper::{Content, Event, Fault, Refusal};
use plan::plan_fits;
use table::check::{check, check_at};
use table::head::columns_of;
use vector::head::Head;
use vector::row::{Columns, Row, Wide};
use vector::width::Width;

// The first refusal of a new table of so many columns: 17, 2, 9.
#[tactic(auto, unfolding(paper::specs::Calls::new_refused), using(crate::proofs::FirstRefused::refusals))]
pub fn new_refused(columns: usize, device: u32, plan: &[u32], table: &[u32]) -> Result<(), Refusal>
    requires { columns ≤ devices }
    ensures { number_in result ≡ new_refused columns device plan.now table.now }
{
    if columns <= device as usize {
        return Err(Refusal::NoSuchDevice);
    }
    if !plan_fits(plan) {
        return Err(Refusal::Table(Fault::Order));
    }
    let width = Row::FLOOR + 4 * columns;
    if table.len() != plan.len() * width + width {
        return Err(Refusal::WrongLength);
    }
    Ok(())
}

// The first refusal of a widening: 1, 2, 3, 19 where the table is wide already, 9.
#[tactic(auto, unfolding(paper::specs::Widths::widen_refused), using(crate::proofs::FirstRefused::refusals))]
pub fn widen_refused(table: &[u32], wider: &[u32]) -> Result<(), Refusal>
    ensures { number_in result ≡ widen_refused table.now wider.now }
{
    if let Columns::Sixteen(_) = check(table)? {
        return Err(Refusal::Width);
    }
    if wider.len() != table[Head::ROWS] as usize * Wide::WIDTH + Wide::WIDTH {
        return Err(Refusal::WrongLength);
    }
    Ok(())
}

// The event that a number names: removes where it is neither 1 nor 2.
#[tactic(auto, unfolding(paper::specs::Calls::event_named))]
fn event_of(event: u32) -> Event
    ensures { result ≡ event_named event }
{
    match event {
        1 => Event::Creates,
        2 => Event::Changes,
        _ => Event::Removes,
    }
}

// Does the event of this number fit a row of this kind?
pub fn fits_kind(event: u32, kind: u32) -> bool
    ensures { result ≡ cond (eqb kind 3) false (fits (event_named event) (kind_of kind)) }
{
    fits_row(event_of(event), kind)
}

// Whether the event of this number takes the content that is handed in.
pub fn takes_content(event: u32) -> bool
    ensures { result ≡ takes_content (event_named event) }
{
    event_of(event).takes_content()
}

// Does an event fit a row of this kind?
#[tactic(auto, unfolding(paper::specs::Acts::fits, paper::specs::Words::kind_of, paper::specs::Acts::is_live))]
fn fits_row(event: Event, kind: u32) -> bool
    ensures { result ≡ cond (eqb kind 3) false (fits event (kind_of kind)) }
{
    if kind == Row::FOLDER {
        return false;
    }
    match event {
        Event::Creates => kind != Row::LIVE,
        Event::Changes | Event::Removes => kind == Row::LIVE,
    }
}

// The first refusal of an event: 1, 2, 3, 16, 21, 22, 8, 10, 15; where nothing refuses, the event.
#[tactic(auto, unfolding(paper::specs::Calls::event_refused), using(crate::proofs::FirstRefused::refusals))]
fn event_refused_at<const N: usize>(
    table: &[u32],
    row: u32,
    event: u32,
    content: Content,
    w: Width<N>,
) -> Result<Event, Refusal>
    requires { Widths.Width N }
    ensures number { number_in result ≡ event_refused N table.now row event content }
    ensures named { IfOk result (λ e. event ≡ event_number e) }
{
    check_at(table, w)?;
    let named = Event::try_from(event)?;
    content_refused(named.takes_content(), content)?;
    if table[Head::ROWS] <= row {
        return Err(Refusal::NoSuchRow);
    }
    if !fits_row(named, table[(row as usize + 1) * (Row::FLOOR + 4 * N)]) {
        return Err(Refusal::Unfit);
    }
    counter_refused(table)?;
    Ok(named)
}

// So of an event at the table's own width, which is handed back with it. The event is any number: 16 has its place in the order.
pub fn event_refused(
    table: &[u32],
    row: u32,
    event: u32,
    content: Content,
) -> Result<(Columns, Event), Refusal>
    ensures number { number_in result ≡ event_refused (width_of table.now) table.now row event content }
    ensures width { IfOk result (λ r. columns_in r.0 ≡ width_of table.now) }
    ensures named { IfOk result (λ r. event ≡ event_number r.1) }
{
    let columns = columns_of(table);
    let named = match columns {
        Columns::Eight(w) => event_refused_at(table, row, event, content, w)?,
        Columns::Sixteen(w) => event_refused_at(table, row, event, content, w)?,
    };
    Ok((columns, named))
}
