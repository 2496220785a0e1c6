// Where a reading stands between two elements.
ghost use Rattle.std.specs.Prelude.{◌≡◌};
ghost use Rattle.statements.specs.Passes.{AtStart};

use crate::stack::FIRST_STATE;
use blocks::{Blocks, no_blocks};
use steps::State;

// The next element is looked for at `at`, and the table so far has n bytes.
#[derive(Clone, Copy)]
pub struct Cursor {
    pub state: State,
    pub blocks: Blocks,
    pub at: usize,
    pub n: usize,
}

pub fn standing(state: State, blocks: Blocks, at: usize, n: usize) -> Cursor
    ensures { (result.state ≡ state) × (result.blocks ≡ blocks) × (result.at ≡ at) × (result.n ≡ n) }
{
    Cursor {
        state: state,
        blocks: blocks,
        at: at,
        n: n,
    }
}

// Where every reading begins.
pub fn start() -> Cursor
    ensures { AtStart result }
{
    standing(FIRST_STATE, no_blocks(), 0, 0)
}
