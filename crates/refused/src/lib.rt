// Every refusal of the public calls, in the paper's order: helpers that only read.

#![tactic(auto)]

pub mod of_pair;
pub mod of_showing;
pub mod of_table;

ghost use Rattle.std.specs.Prelude.{◌≡◌, ◌≤◌, eqb, get_or, length};
ghost use Rattle.paper.specs.Refusals.{number_in, when};
ghost use Rattle.paper.specs.Calls.{content_if, last_count};

use paper::{Content, Refusal};
use vector::head::Head;

// What refuses the content of a call, where it is taken: 21, 22.
#[tactic(auto, unfolding(paper::specs::Calls::content_refused, paper::specs::Refusals::first, paper::specs::Refusals::when))]
pub fn content_refused(takes: bool, content: Content) -> Result<(), Refusal>
    ensures { number_in result ≡ content_if takes content }
{
    if !takes {
        return Ok(());
    }
    if Content::MOST_CLASS < content.class {
        return Err(Refusal::NoSuchClass);
    }
    if content.mark == 0 {
        return Err(Refusal::NoMark);
    }
    Ok(())
}

// 15 where the table's counter can go no higher.
#[tactic(auto, unfolding(paper::specs::Refusals::when))]
fn counter_refused(table: &[u32]) -> Result<(), Refusal>
    requires { 3 ≤ length table.now }
    ensures { number_in result ≡ when (eqb (get_or table.now 1 0) last_count) 15 }
{
    if table[Head::COUNTER] == Head::LAST_COUNT {
        return Err(Refusal::CounterFull);
    }
    Ok(())
}
