// The rows beneath a folder as a part of the lent table, where nothing refuses to show them.

#![tactic(auto)]

ghost use Rattle.std.specs.Prelude.{◌≡◌};
ghost use Rattle.paper.specs.Calls.{beneath_refused, beneath_part};
ghost use Rattle.paper.specs.Shown.{word_at, beneath_from};

use vector::row::Row;
use vector::width::Width;

// The rows beneath a folder that nothing refuses: from the next row on, as many as its size says, less its own.
#[tactic(auto, using(crate::proofs::Beneath::beneath_begins, crate::proofs::Beneath::folder_at))]
pub fn rows_beneath<const N: usize>(table: &[u32], row: usize, w: Width<N>) -> &[u32]
    requires { beneath_refused N table.now row ≡ 0 }
    ensures { (result.now ≡ beneath_part N table.now row)
        × (result.ref_ptr ≡ word_at table.entry.ref_ptr (beneath_from N table.now row)) }
{
    let width = Row::FLOOR + 4 * N;
    let at = (row + 1) * width;
    let size = table[at + Row::SIZE] as usize;
    let start = at + width;
    let end = at + size * width;
    &table[start..end]
}
