// Choices by the commands of a model: the test is read from the bytes again, so that only offsets and indexes live over the calls.
#![tactic(auto)]

ghost use Rattle.std.specs.Prelude.{◌≡◌, ◌<◌};
ghost use Rattle.theory.specs.Rules.{choose};
ghost use Rattle.rule_node.specs.Nodes.{tree_at};
ghost use Rattle.rule_node.specs.Roots.{Stood};
ghost use Rattle.rule_node.specs.Table.{Table, RuleRan};
ghost use Rattle.load_choose.specs.CommandTest.{Testing, leaf_words, test_at, load_rule};

use model_command::Command;
use rule_choose::roots::choice_at;
use rule_node::codes::CHOOSE_COMMAND;
use rule_node::making::{join, join_test};
use rule_tests::{condition, named};
use table::{Made, Node, Stopped};
use table_cache::{keep, look};
use whole::NUMBERS;

// A linear as a leaf's words.
pub fn words(n: [i64; NUMBERS]) -> Node
    ensures { result ≡ leaf_words n }
{
    Node {
        kind: 0,
        n,
        high: 0,
        low: 0,
    }
}

// The test of the command at an offset, a linear one divided.
fn test_from(model: &[u8], at: usize) -> Node
    requires { Testing model.now at }
    ensures { Stood (test_at model.now at) result }
{
    let read = model_command::command_at(model, at);
    let Ok(c) = read else {
        return condition(1);
    };
    match c {
        Command::Condition(k) => condition(k as usize),
        Command::Test => named(words(model_command::linear_at(model, at + 1))),
        _ => condition(1),
    }
}

// The choice between the diagrams at f and g by the test of the command at an offset.
pub fn choose_command(
    model: &[u8],
    nodes: &mut [i64],
    work: &mut [u32],
    cap: usize,
    count: usize,
    at: usize,
    f: usize,
    g: usize,
) -> Result<Made, Stopped>
    requires { Table (load_rule model.now) cap nodes.old work.old count × Testing model.now at × (f < count) × (g < count) }
    ensures { RuleRan (load_rule model.now) cap nodes.old work.old count (choose (test_at model.now at) (tree_at nodes.old count f) (tree_at nodes.old count g)) nodes.new work.new result }
{
    let s = choice_at(nodes, test_from(model, at), f, g);
    if s.ends {
        return join_test(nodes, work, cap, count, test_from(model, at), s.fh, s.gl);
    }
    if let Some(at) = look(work, cap, CHOOSE_COMMAND, f, g, at, 0) {
        return Ok(Made { at, count });
    }
    let h = choose_command(model, nodes, work, cap, count, at, s.fh, s.gh)?;
    let l = choose_command(model, nodes, work, cap, h.count, at, s.fl, s.gl)?;
    let r = join(nodes, work, cap, l.count, s.root, h.at, l.at)?;
    keep(work, cap, CHOOSE_COMMAND, f, g, at, 0, r.at);
    Ok(r)
}
