// The listing program: a horizon byte and a model on standard input, the listing of the plan or the refusal on standard output.
#![tactic(auto)]

use std::io;
use text_input::MODEL_MOST;
use text_program::answer;
use text_read::read_full;

// A horizon byte, and a model of one byte more than is taken: a longer one is refused by its length.
const ROOM: usize = 2 + MODEL_MOST;

// The bytes that the text has room for.
const TEXT_BYTES: usize = 65536;

fn show(rt: &impl Print, input: &[u8]) -> io::Result<()> {
    let mut text = [0u8; TEXT_BYTES];
    let size = answer(input, &mut text);
    rt.write_all(&text[..size])
}

fn run(rt: &(impl Input + Print), room: &mut [u8]) -> io::Result<()> {
    let n = read_full(&mut rt.reader(), room)?;
    show(rt, &room[..n])
}

fn main(rt: HostRuntime) -> io::Result<()> {
    let mut room = [0u8; ROOM];
    run(&rt, &mut room)
}
