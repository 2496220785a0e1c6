// What the state holds of the open blocks.
ghost use Rattle.std.specs.Prelude.{◌≡◌, ◌≤◌};
ghost use Rattle.rows.specs.Rows.{deepest};
ghost use Rattle.blocks.specs.Stack.{blocks_of};
ghost use Rattle.steps.specs.States.{closing};
ghost use Rattle.statements.specs.Opened.{seeing};

use blocks::{Blocks, name_of, top_of};
use rows::{DEEPEST, Kind, Nest, Op};
use steps::{Awaited, State};

// The state that sees these blocks
pub fn seen(t: State, b: Blocks) -> State
    requires { b.depth ≤ deepest }
    ensures { result ≡ seeing (blocks_of b) t }
{
    State {
        top: top_of(b),
        full: DEEPEST <= b.depth,
        ..t
    }
}

// The state with the innermost block's name in hand
pub fn with_name(t: State, b: Blocks) -> State
    requires { b.depth ≤ deepest }
    ensures { result ≡ closing (blocks_of b) t }
{
    if b.depth == 0 {
        return t;
    }
    let (from, upto) = name_of(b);
    State { from, upto, ..t }
}

// The state that a reading begins with
pub const FIRST_STATE: State = State {
    awaited: Awaited::Statement,
    nest: Nest::Alone,
    kind: Kind::Object,
    op: Op::First,
    top: None,
    full: false,
    from: 0,
    upto: 0,
};
