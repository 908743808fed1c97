// The commands of the models on standard input, a line each: a label, a colon, and the model as hexadecimal text.
// A reader over the model from each command on reads that command and the one behind it; both are compared with the
// cursor's. A line without a colon is copied.
#![tactic(auto)]

use check_hex::{find, report};
use model_command::{Command, CommandError};
use std::io;
use text_read::read_full;

// A command's byte and its operands of one or two bytes, 0 where it has fewer; byte 0 for an unknown one, 1 for one that is cut.
#[derive(Clone, Copy)]
struct Row {
    byte: u8,
    first: u16,
    second: u16,
    third: u16,
    fourth: u16,
}

fn row_of(byte: u8, first: u16, second: u16, third: u16, fourth: u16) -> Row {
    Row {
        byte,
        first,
        second,
        third,
        fourth,
    }
}

fn command_row(c: Command) -> Row {
    match c {
        Command::Site {
            levels,
            conditions,
            actions,
            weights,
        } => {
            row_of(
                0x02,
                u16::from(levels),
                u16::from(conditions),
                actions,
                u16::from(weights),
            )
        }
        Command::Leaf => row_of(0x10, 0, 0, 0, 0),
        Command::Condition(k) => row_of(0x11, u16::from(k), 0, 0, 0),
        Command::Test => row_of(0x12, 0, 0, 0, 0),
        Command::Forbidden => row_of(0x13, 0, 0, 0, 0),
        Command::Give {
            command,
            action,
            index,
        } => row_of(command, action, u16::from(index), 0, 0),
        Command::Name(action) => row_of(0x30, action, 0, 0, 0),
        Command::End => row_of(0xff, 0, 0, 0, 0),
    }
}

fn shown(r: Result<Command, CommandError>) -> Row {
    match r {
        Ok(c) => command_row(c),
        Err(CommandError::Unknown) => row_of(0, 0, 0, 0, 0),
        Err(CommandError::Short) => row_of(1, 0, 0, 0, 0),
    }
}

fn same(x: Row, y: Row) -> bool {
    if x.byte != y.byte {
        return false;
    }
    if x.first != y.first {
        return false;
    }
    if x.second != y.second {
        return false;
    }
    if x.third != y.third {
        return false;
    }
    x.fourth == y.fourth
}

fn print(rt: &impl Print, at: usize, x: Row) -> io::Result<()> {
    report::number(rt, at as u64, b":")?;
    report::text(rt, b" ")?;
    report::number(rt, x.byte as u64, b" ")?;
    report::number(rt, x.first as u64, b" ")?;
    report::number(rt, x.second as u64, b" ")?;
    report::number(rt, x.third as u64, b" ")?;
    report::number(rt, x.fourth as u64, b"\n")
}

fn compare(rt: &impl Print, x: Row, cursor: Row) -> io::Result<()> {
    if same(x, cursor) {
        return Ok(());
    }
    report::line(rt, b"the cursor reads another")
}

// The command at an offset, and the one behind it: as a reader over the rest of the model has them, and the cursor.
fn step(rt: &impl Print, model: &[u8], rest: &[u8], at: usize, next: usize) -> io::Result<()> {
    let x = shown(model_reader::first(rest));
    print(rt, at, x)?;
    compare(rt, x, shown(model_command::command_at(model, at)))?;
    compare(
        rt,
        shown(model_reader::second(rest)),
        shown(model_command::command_at(model, next)),
    )
}

// Each command up to the model's end.
fn walk(rt: &impl Print, model: &[u8]) -> io::Result<()> {
    let mut at: usize = 0;
    // No `for`: a command has its own size.
    while at < model.len() {
        let next = model_command::next_after(model, at);
        step(rt, model, &model[at..], at, next)?;
        if next <= at {
            return Ok(());
        }
        at = next;
    }
    Ok(())
}

fn read(rt: &impl Print, name: &[u8], text: &[u8], room: &mut [u8]) -> io::Result<()> {
    let n = check_hex::bytes_of(text, room);
    report::line(rt, name)?;
    walk(rt, &room[..n])
}

fn line(rt: &impl Print, text: &[u8]) -> io::Result<()> {
    let k = find(text, 0, b':');
    if k == text.len() {
        return report::line(rt, text);
    }
    let mut room = [0u8; 1024];
    read(rt, &text[..k], &text[k..], &mut room)
}

fn lines(rt: &impl Print, text: &[u8]) -> io::Result<()> {
    let mut at: usize = 0;
    // No `for`: a line has any length.
    while at < text.len() {
        let end = find(text, at, b'\n');
        line(rt, &text[at..end])?;
        at = end + 1;
    }
    Ok(())
}

fn all(rt: &(impl Input + Print), room: &mut [u8]) -> io::Result<()> {
    let n = read_full(&mut rt.reader(), room)?;
    lines(rt, &room[..n])
}

fn main(rt: HostRuntime) -> io::Result<()> {
    let mut room = [0u8; 32768];
    all(&rt, &mut room)
}
