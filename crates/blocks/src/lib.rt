// The open blocks in arrays, by value: only what opens or closes a block is handed them. The reader, the table's check and the writer
// share them.
#![tactic(auto)]

ghost use Rattle.std.specs.Prelude.{◌≡◌, [], ◌∷◌, ◌+◌, ◌<◌, ◌≤◌};
ghost use Rattle.blocks.specs.Stack.{block, kind_at, top_of, start_of, end_of, rest, blocks_of, no_blocks, push_on, pop_off};
ghost use Rattle.rows.specs.Rows.{deepest};

use rows::{DEEPEST, Kind, OPEN_GROUP, open_kind};

// The open blocks: where the name of each starts and ends, and its kind.
#[derive(Clone, Copy)]
pub struct Blocks {
    pub starts: [u16; DEEPEST],
    pub ends: [u16; DEEPEST],
    pub kinds: [u8; DEEPEST],
    pub depth: usize,
}

pub fn no_blocks() -> Blocks
    ensures { (blocks_of result ≡ []) × (result.depth ≡ 0) × (result ≡ no_blocks) }
{
    Blocks {
        starts: [0; DEEPEST],
        ends: [0; DEEPEST],
        kinds: [0; DEEPEST],
        depth: 0,
    }
}

fn kind_of(n: u8) -> Kind
    ensures { result ≡ kind_at n }
{
    if n == OPEN_GROUP {
        Kind::Group
    } else {
        Kind::Object
    }
}

pub fn push(b: Blocks, k: Kind, x: usize, y: usize) -> Blocks
    requires { (b.depth < deepest) × (x < 65536) × (y < 65536) }
    ensures { (blocks_of result ≡ block k x y ∷ blocks_of b) × (result.depth ≡ b.depth + 1) × (result ≡ push_on b k x y) }
{
    let mut r = b;
    let d = b.depth;
    r.starts[d] = x as u16;
    r.ends[d] = y as u16;
    r.kinds[d] = open_kind(k);
    r.depth = d + 1;
    r
}

pub fn pop(b: Blocks) -> Blocks
    ensures { (blocks_of result ≡ rest (blocks_of b)) × (result.depth ≤ b.depth) × (result ≡ pop_off b) }
{
    let mut r = b;
    if 0 < b.depth {
        r.depth = b.depth - 1;
    }
    r
}

// The kind of the innermost open block, if any.
pub fn top_of(b: Blocks) -> Option<Kind>
    requires { b.depth ≤ deepest }
    ensures { result ≡ top_of (blocks_of b) }
{
    let d = b.depth;
    if d == 0 {
        return None;
    }
    Some(kind_of(b.kinds[d - 1]))
}

// Where the innermost block's name starts and ends, and 0 for both outside all blocks.
pub fn name_of(b: Blocks) -> (usize, usize)
    requires { b.depth ≤ deepest }
    ensures start { result.0 ≡ start_of (blocks_of b) }
    ensures end { result.1 ≡ end_of (blocks_of b) }
{
    let d = b.depth;
    if d == 0 {
        return (0, 0);
    }
    (usize::from(b.starts[d - 1]), usize::from(b.ends[d - 1]))
}
