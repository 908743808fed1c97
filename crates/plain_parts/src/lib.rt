// Where each slot's diagram begins: one pass over a model finds it, later evaluations start there.
// A model written diagram by diagram has nothing on the stack before each diagram, and evaluation then reads that diagram alone.
#![tactic(auto)]

ghost use Rattle.std.specs.Prelude.{◌≡◌, List, ℕ, ◌+◌, ◌-◌, ◌<◌, MatchOption, eqb, ltb, length, get_or};
ghost use Rattle.whole.specs.Cases.{if};
ghost use Rattle.theory.specs.Widths.{stack_most};
ghost use Rattle.theory.specs.Command.{whole, byte_at, width, read_at};
ghost use Rattle.theory.specs.Verdict.{verdict};
ghost use Rattle.model_command.specs.CursorReadings.{command_of};
ghost use Rattle.plain_pass.specs.Pass.{slot_of};
ghost use Rattle.plain_pass.specs.Parts.{slots_each, depth_after, noted, put, NoNotes, Parts};
ghost use Rattle.plain_pass.specs.Parts.{row as row_of};
ghost use Rattle.plain_pass.specs.Parts.{place as place_of};

use model_command::Command;
use model_form::{ACTIONS, CONDITIONS, Form, LEVELS};
use model_stack::STACK_MOST;
use plain_pass::Slot;

// The end worth's place among an action's slots: behind a reward, the chances and the next levels.
const END_ROW: usize = 1 + CONDITIONS + LEVELS;

pub const SLOTS_EACH: usize = END_ROW + 1;

// For each action; action 0 has its words too, for the end worth.
pub const SLOTS: usize = (ACTIONS + 1) * SLOTS_EACH;

// A model of few actions needs no more words.
pub const FEW_ACTIONS: usize = 20;

pub const FEW_SLOTS: usize = (FEW_ACTIONS + 1) * SLOTS_EACH;

// The bytes of a command that was read.
pub fn size(c: Command) -> usize
    ensures { (B : List ℕ) (i : ℕ) → whole (command_of B i c) ≡ read_at B i → result ≡ width (byte_at B i) }
{
    model_command::size_in(Form::New, c)
}

// The place among an action's slots, if there is such a slot.
#[tactic(auto, unfolding(plain_pass::specs::Parts::row))]
fn row(command: u8, index: u8) -> Option<usize>
    ensures { MatchOption result (row_of command index ≡ slots_each) (λ r. row_of command index ≡ r × (r < slots_each)) }
{
    match (command, usize::from(index)) {
        (0x20, 0) => Some(0),
        (0x23, 0) => Some(END_ROW),
        (0x21, i @ 1..=CONDITIONS) => Some(i),
        (0x22, i @ 1..=LEVELS) => Some(CONDITIONS + i),
        _ => None,
    }
}

#[tactic(auto, unfolding(plain_pass::specs::Parts::place))]
fn place(g: Slot) -> usize
    ensures { result ≡ place_of (slot_of g) }
{
    match row(g.command, g.index) {
        Some(r) => usize::from(g.action) * SLOTS_EACH + r,
        None => SLOTS,
    }
}

// The offset that a slot's diagram is read from; 0 serves every slot.
pub fn begin(parts: &[u32], g: Slot) -> usize
    ensures { result ≡ get_or parts.now (place_of (slot_of g)) 0 }
{
    match parts.get(place(g)) {
        Some(&at) => at as usize,
        None => 0,
    }
}

// The first that is given stays.
fn enter(parts: &mut [u32], g: Slot, begin: u32)
    ensures { parts.new ≡ put (slot_of g) begin parts.old }
{
    let p = place(g);
    if p < parts.len() && parts[p] == 0 {
        parts[p] = begin;
    }
}

fn note(parts: &mut [u32], c: Command, begin: u32)
    ensures { (B : List ℕ) (i : ℕ) → parts.new ≡ noted (command_of B i c) begin parts.old }
{
    if let Command::Give {
        command,
        action,
        index,
    } = c
    {
        enter(
            parts,
            Slot {
                command,
                action,
                index,
            },
            begin,
        );
    }
}

fn pushed(n: usize) -> usize
    ensures { result ≡ if (ltb n stack_most) (n + 1) n }
{
    if n < STACK_MOST { n + 1 } else { n }
}

fn joined(n: usize) -> usize
    ensures { result ≡ if (ltb n 2) n (n - 1) }
{
    if n < 2 { n } else { n - 1 }
}

fn popped(n: usize) -> usize
    ensures { result ≡ n - 1 }
{
    n.saturating_sub(1)
}

// How many diagrams the stack holds behind a command.
#[tactic(auto, unfolding(plain_pass::specs::Parts::depth_after, model_command::specs::CursorReadings::command_of_in))]
fn depth(c: Command, n: usize) -> usize
    ensures { (B : List ℕ) (i : ℕ) → result ≡ depth_after (command_of B i c) n }
{
    match c {
        Command::Leaf | Command::Forbidden => pushed(n),
        Command::Condition(_) | Command::Test => joined(n),
        Command::Give { .. } => popped(n),
        Command::Site { .. } | Command::Name(_) | Command::End => n,
    }
}

// Where the stack was empty last: here, or where it was so before.
fn last_empty(depth: usize, begin: u32, at: u32) -> u32
    ensures { result ≡ if (eqb depth 0) at begin }
{
    if depth == 0 { at } else { begin }
}

// "one pass": of each slot the last offset before its command at which nothing was on the stack.
pub fn find(model: &[u8], parts: &mut [u32])
    requires { ((verdict model.now).number ≡ 0) × (length model.now < 4294967296) × NoNotes parts.old }
    ensures { Parts model.now parts.new }
{
    let mut at = model_command::next_after(model, 0);
    let mut begin = at as u32;
    let mut held: usize = 0;
    while let Ok(c) = model_command::command_at(model, at) {
        if model::is_end(c) {
            return;
        }
        begin = last_empty(held, begin, at as u32);
        note(parts, c, begin);
        held = depth(c, held);
        at += size(c);
    }
}
