// "loading the model": one pass over the commands of an accepted model, its diagrams made as they come.
#![tactic(auto)]

ghost use Rattle.std.specs.Prelude.{◌≡◌, List, ℕ, ◌+◌, ◌*◌, ◌≤◌, ◌<◌, length};
ghost use Rattle.theory.specs.Widths.{bytes_most, loaded_roots_most};
ghost use Rattle.theory.specs.Verdict.{verdict};
ghost use Rattle.model_command.specs.CursorReadings.{command_of};
ghost use Rattle.rule_node.specs.Table.{Table};
ghost use Rattle.load_choose.specs.CommandTest.{load_rule};
ghost use Rattle.load_model.specs.ModelRoots.{rows_above, offset_of, place_of, ended_by, stored_in, Starts, Loads};

use load_command::{Loaded, step};
use model::{is_end, site};
use model_command::Command;
use model_form::{ACTIONS, CONDITIONS, LEVELS};
use model_stack::Stack;

// The most roots that a model has, with the end worth's.
pub const LOADED_ROOTS: usize = (1 + CONDITIONS + LEVELS) * ACTIONS + 1;

// The byte of the command that gives the end worth.
const END_WORTH: u8 = 0x23;

// The number that stops the load, or 0, how many nodes there are, and whether an end worth is given.
#[derive(Clone, Copy)]
pub struct Done {
    pub stop: usize,
    pub count: usize,
    pub ended: bool,
}

// How many actions' roots stand before what is given: those of the actions with lower numbers, or all before the end worth's.
fn above(actions: u16, command: u8, action: u16) -> usize
    ensures { ((i : ℕ) → result ≡ rows_above actions (record { command = command; action = action; index = i })) × (result < 65536) }
{
    if command == END_WORTH {
        return usize::from(actions);
    }
    let a = usize::from(action);
    if a == 0 {
        return 0;
    }
    a - 1
}

// Where the roots behind those of some actions begin.
fn row(levels: u8, conditions: u8, above: usize) -> usize
    requires { above < 65536 }
    ensures { (result ≡ above * (1 + conditions + levels)) × (result < 33554432) }
{
    let n = 1 + usize::from(conditions) + usize::from(levels);
    above * n
}

// Within an action's roots: its reward, its chances, its next levels.
fn offset(conditions: u8, command: u8, index: u8) -> usize
    ensures { ((a : ℕ) → result ≡ offset_of conditions (record { command = command; action = a; index = index })) × (result < 512) }
{
    if command == 0x22 {
        usize::from(conditions) + usize::from(index)
    } else {
        usize::from(index)
    }
}

// Where the root goes that a command gives; past all roots where it gives none.
fn place(levels: u8, conditions: u8, actions: u16, c: Command) -> usize
    ensures { (B : List ℕ) (at : ℕ) → result ≡ place_of levels conditions actions (command_of B at c) }
{
    match c {
        Command::Give {
            command,
            action,
            index,
        } => row(levels, conditions, above(actions, command, action))
            + offset(conditions, command, index),
        _ => LOADED_ROOTS,
    }
}

// Whether an end worth has been given, with one command more.
fn ended_by(ended: bool, c: Command) -> bool
    ensures { (B : List ℕ) (at : ℕ) → result ≡ ended_by ended (command_of B at c) }
{
    match c {
        Command::Give { command, .. } => { if command == END_WORTH { true } else { ended } }
        _ => ended,
    }
}

// Keeps a root.
fn store(roots: &mut [u32], at: usize, x: u32)
    requires { loaded_roots_most ≤ length roots.old }
    ensures { roots.new ≡ stored_in roots.old at x }
{
    if at < LOADED_ROOTS {
        roots[at] = x;
    }
}

fn start() -> Loaded
    ensures { Starts result }
{
    Loaded {
        stop: 0,
        count: 0,
        stack: Stack::new(),
    }
}

// Loads an accepted model into an empty table.
pub fn load(
    model: &[u8],
    nodes: &mut [i64],
    work: &mut [u32],
    cap: usize,
    roots: &mut [u32],
) -> Done
    requires { ((verdict model.now).number ≡ 0) × (length model.now ≤ bytes_most) × Table (load_rule model.now) cap nodes.old work.old 0 × (loaded_roots_most ≤ length roots.old) }
    ensures { Loads model.now cap nodes.new work.new roots.new result }
{
    let operands = site(model);
    let mut at = model_command::next_after(model, 0);
    let mut s = start();
    let mut ended = false;
    loop {
        let read = model_command::command_at(model, at);
        let Ok(c) = read else {
            return Done {
                stop: 0,
                count: 0,
                ended: false,
            };
        };
        if is_end(c) {
            return Done {
                stop: 0,
                count: s.count,
                ended,
            };
        }
        let stack = s.stack;
        let x = stack.top();
        store(
            roots,
            place(operands.levels, operands.conditions, operands.actions, c),
            x,
        );
        ended = ended_by(ended, c);
        s = step(model, nodes, work, cap, at, c, s);
        if s.stop != 0 {
            return Done {
                stop: s.stop,
                count: s.count,
                ended,
            };
        }
        at = model_command::next_after(model, at);
    }
}
