// The answers of a folder that is passed over and of all beneath it: sheets get 0 and folders 5.
ghost use Rattle.std.specs.Prelude.{◌≡◌, ◌*◌, ◌<◌, length};
ghost use Rattle.paper.specs.Columns.{columns};
ghost use Rattle.leaf.specs.Leaves.{silent_kind, silent_at};

use vector::row::Row;

fn silent_answer(kind: u32) -> u32
    ensures { result ≡ silent_kind kind }
{
    if kind == Row::FOLDER { 5 } else { 0 }
}

// An answer for each row of a part, whose rows have so many words.
#[tactic(auto, using(vector::proofs::WriteLoops::upto_columns))]
pub fn answer_silently(s: &[u32], answers: &mut [u32], width: usize)
    requires { (length s.now ≡ length answers.old * width) × (0 < width) }
    ensures { answers.new ≡ columns (length answers.old) (silent_at width s.now) }
{
    for (i, answer) in answers.iter_mut().enumerate() {
        *answer = silent_answer(s[i * width]);
    }
}
