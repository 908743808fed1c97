// How many nodes the lent words have room for.
#![tactic(auto)]

ghost use Rattle.std.specs.Prelude.{◌≡◌, min};
ghost use Rattle.theory.specs.Solve.{room as room_of};

use table::{NODE_WORDS, NODES_MOST};
use table_unique::WORK_WORDS;

// "the least of node words ÷ 12, work words ÷ 8 and 65,535"
pub fn room(nodes: usize, work: usize) -> usize
    ensures { result ≡ room_of nodes work }
{
    (nodes / NODE_WORDS).min((work / WORK_WORDS).min(NODES_MOST))
}
