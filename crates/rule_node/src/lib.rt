// Diagrams in a node table: the unique table's nodes read as trees.
#![tactic(auto)]

ghost use Rattle.std.specs.Prelude.{◌≡◌, T, nat_abs};
ghost use Rattle.std.specs.Int.Signed.{non_neg};

pub mod narrowing; // narrowing.rt: what a low branch is replaced by
pub mod making; // making.rt: nodes looked up or made
pub mod codes; // codes.rt: the rules' numbers, the kinds of tests and their order

// What lies below a node: nothing where it ends, at a leaf.
#[derive(Clone, Copy)]
pub struct Down {
    pub ends: bool,
    pub high: usize,
    pub low: usize,
}

// What a rule goes on with at f and g: the root, and the high and the low sides of both.
#[derive(Clone, Copy)]
pub struct Sides {
    pub ends: bool,
    pub root: usize,
    pub fh: usize,
    pub gh: usize,
    pub fl: usize,
    pub gl: usize,
}

// A branch word as an index.
pub fn index(z: i64) -> usize
    requires { T (non_neg z) }
    ensures { result ≡ nat_abs z }
{
    z as usize
}
