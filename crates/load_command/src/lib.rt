// One command of the model: the stack is held by value, and holds the numbers of diagrams.
#![tactic(auto)]

ghost use Rattle.std.specs.Prelude.{◌≡◌, ◌<◌, drop, get_or};
ghost use Rattle.table.specs.Table.{stop_of, at_of};
ghost use Rattle.theory.specs.Diagram.{leaf as leafed, plain};
ghost use Rattle.theory.specs.Rules.{none_leaf};
ghost use Rattle.theory.specs.Computation.{make};
ghost use Rattle.model_stack.specs.Held.{held};
ghost use Rattle.model_command.specs.CursorReadings.{linear_of, command_of};
ghost use Rattle.rule_node.specs.Nodes.{Nums};
ghost use Rattle.rule_node.specs.Table.{Bare, Table};
ghost use Rattle.load_choose.specs.CommandTest.{Testing, load_rule, leaf_words};
ghost use Rattle.load_command.specs.CommandStep.{PutMade, GrownOn, ChoiceMade, Popped, StepReady, Stepped};

use load_choose::{choose_command, words};
use model_command::Command;
use model_stack::Stack;
use rule_node::making::{intern, make_none};
use table::{Made, Stopped};
use whole::NUMBERS;

// The number that stops a load, or 0; how many nodes there are; and the stack.
#[derive(Clone, Copy)]
pub struct Loaded {
    pub stop: usize,
    pub count: usize,
    pub stack: Stack,
}

// What was made goes on the stack.
fn put(stack: Stack, m: Result<Made, Stopped>) -> Loaded
    requires { stop_of m ≡ 0 → at_of m < 65536 }
    ensures { PutMade (held stack) m result }
{
    match m {
        Ok(made) => Loaded {
            stop: 0,
            count: made.count,
            stack: stack.push(made.at as u32),
        },
        Err(e) => Loaded {
            stop: e.why.number(),
            count: e.count,
            stack,
        },
    }
}

// A leaf.
fn leaf(nodes: &mut [i64], work: &mut [u32], cap: usize, s: Loaded, p: [i64; NUMBERS]) -> Loaded
    requires { Bare cap nodes.old work.old s.count × Nums (leaf_words p) }
    ensures { GrownOn cap nodes.old work.old s.count (make (leafed (plain (linear_of p)))) (held s.stack) nodes.new work.new result }
{
    put(s.stack, intern(nodes, work, cap, s.count, words(p)))
}

// "Command 13 pushes a leaf "forbidden""
fn forbidden(nodes: &mut [i64], work: &mut [u32], cap: usize, s: Loaded) -> Loaded
    requires { Bare cap nodes.old work.old s.count }
    ensures { GrownOn cap nodes.old work.old s.count (make none_leaf) (held s.stack) nodes.new work.new result }
{
    put(s.stack, make_none(nodes, work, cap, s.count))
}

// "takes low, then high, off the stack and pushes the choice", by the test of the command at an offset.
fn choice(
    model: &[u8],
    nodes: &mut [i64],
    work: &mut [u32],
    cap: usize,
    at: usize,
    s: Loaded,
) -> Loaded
    requires { Table (load_rule model.now) cap nodes.old work.old s.count × Testing model.now at × (get_or (drop 1 (held s.stack)) 0 0 < s.count) × (get_or (held s.stack) 0 0 < s.count) }
    ensures { ChoiceMade model.now cap nodes.old work.old at s nodes.new work.new result }
{
    let low = s.stack.top();
    let rest = s.stack.pop();
    let high = rest.top();
    let m = choose_command(
        model,
        nodes,
        work,
        cap,
        s.count,
        at,
        high as usize,
        low as usize,
    );
    put(rest.pop(), m)
}

// "takes one diagram off the stack"
fn taken(s: Loaded) -> Loaded
    ensures { Popped s result }
{
    Loaded {
        stack: s.stack.pop(),
        ..s
    }
}

// One command.
pub fn step(
    model: &[u8],
    nodes: &mut [i64],
    work: &mut [u32],
    cap: usize,
    at: usize,
    c: Command,
    s: Loaded,
) -> Loaded
    requires { StepReady model.now cap nodes.old work.old at (command_of model.now at c) s }
    ensures { Stepped model.now cap nodes.old work.old (command_of model.now at c) s.count (held s.stack) nodes.new work.new result }
{
    match c {
        Command::Leaf => leaf(nodes, work, cap, s, model_command::linear_at(model, at + 1)),
        Command::Condition(_) => choice(model, nodes, work, cap, at, s),
        Command::Test => choice(model, nodes, work, cap, at, s),
        Command::Forbidden => forbidden(nodes, work, cap, s),
        Command::Give { .. } => taken(s),
        _ => s,
    }
}
