// What a text's sums and comparisons are worked in: a frame for each open bracket. A step takes a byte; a number beyond 32
// bits ends the work.
#![tactic(auto)]

ghost use Rattle.std.specs.Prelude.{◌≡◌, true, length};
ghost use Rattle.whole.specs.Linears.{numbers};
ghost use Rattle.import_linears.specs.Nine.{Nine};
ghost use Rattle.import_frames.specs.Frames as f;
ghost use Rattle.import_frames.specs.Frames.{SoundFrame};

use import_linears::{all_fit, constant, level, product};
use whole::NUMBERS;
use whole_linears::{add, sub};

// What a frame waits for: a factor, more of a number, nothing of a factor that is whole, a level's digit, nothing of a
// condition that is whole, a condition's digit, the end of a name.
pub const START: u8 = 0;

pub const NUMBER: u8 = 1;

pub const WHOLE: u8 = 2;

pub const LEVEL: u8 = 3;

pub const HELD: u8 = 4;

pub const CONDITION: u8 = 5;

pub const NAME: u8 = 6;

// The left side of a comparison (compared: 0 none, 1 `<`, 2 `<=`, 3 `>`, 4 `>=`), the terms so far, the factors of the
// term so far, which is taken away if minus, and the number so far.
#[derive(Clone, Copy)]
pub struct Frame {
    pub left: [i64; NUMBERS],
    pub sum: [i64; NUMBERS],
    pub term: [i64; NUMBERS],
    pub number: u64,
    pub minus: bool,
    pub mode: u8,
    pub compared: u8,
    pub beyond: bool,
}

pub fn is_digit(k: u8) -> bool
    ensures { result ≡ f.digit k }
{
    k.is_ascii_digit()
}

pub fn is_blank(k: u8) -> bool
    ensures { result ≡ f.blank k }
{
    matches!(k, b' ' | b'\t' | b'\n' | b'\r')
}

fn made(
    left: [i64; NUMBERS],
    sum: [i64; NUMBERS],
    term: [i64; NUMBERS],
    number: u64,
    minus: bool,
    mode: u8,
    compared: u8,
) -> Frame
    ensures { result ≡ f.made left sum term number minus mode compared }
{
    Frame {
        left,
        sum,
        term,
        number,
        minus,
        mode,
        compared,
        beyond: false,
    }
}

// A frame with nothing in it.
pub fn idle(mode: u8) -> Frame
    ensures { result ≡ f.idle mode }
{
    let one = [0, 0, 0, 0, 0, 0, 0, 0, 1];
    made([0; NUMBERS], [0; NUMBERS], one, 0, false, mode, 0)
}

// A number was beyond.
pub fn over() -> Frame
    ensures { result ≡ f.over }
{
    Frame {
        beyond: true,
        ..idle(START)
    }
}

// The term is t, whose last factor is whole.
fn termed(s: Frame, t: [i64; NUMBERS]) -> Frame
    ensures { result ≡ f.termed s t }
{
    made(s.left, s.sum, t, 0, s.minus, WHOLE, s.compared)
}

fn moded(s: Frame, mode: u8) -> Frame
    ensures { result ≡ f.moded s mode }
{
    made(s.left, s.sum, s.term, 0, s.minus, mode, s.compared)
}

fn numbered(s: Frame, n: u64) -> Frame
    ensures { result ≡ f.numbered s n }
{
    made(s.left, s.sum, s.term, n, s.minus, NUMBER, s.compared)
}

fn with_comparison(s: Frame, compared: u8) -> Frame
    ensures { result ≡ f.made s.left s.sum s.term 0 s.minus 0 compared }
{
    made(s.left, s.sum, s.term, 0, s.minus, START, compared)
}

// The terms are t, and another begins.
fn summed(s: Frame, t: [i64; NUMBERS], minus: bool) -> Frame
    ensures { result ≡ f.summed s t minus }
{
    let one = [0, 0, 0, 0, 0, 0, 0, 0, 1];
    made(s.left, t, one, 0, minus, START, s.compared)
}

fn sided(t: [i64; NUMBERS], compared: u8) -> Frame
    ensures { result ≡ f.sided t compared }
{
    let one = [0, 0, 0, 0, 0, 0, 0, 0, 1];
    made(t, [0; NUMBERS], one, 0, false, START, compared)
}

fn valued(t: [i64; NUMBERS]) -> Frame
    ensures { result ≡ f.valued t }
{
    let one = [0, 0, 0, 0, 0, 0, 0, 0, 1];
    made([0; NUMBERS], t, one, 0, false, WHOLE, 0)
}

// A factor more.
pub fn factor(s: Frame, q: [i64; NUMBERS]) -> Frame
    requires { SoundFrame s × (length q ≡ numbers) }
    ensures { result ≡ f.factor s q }
{
    let y = product(s.term, q);
    if all_fit(y) {
        return termed(s, y);
    }
    over()
}

// The number is whole.
#[tactic(auto, unfolding(crate::specs::Frames::closed))]
pub fn closed(s: Frame) -> Frame
    requires { SoundFrame s }
    ensures { result ≡ f.closed s }
{
    if s.mode == NUMBER {
        factor(s, constant(s.number))
    } else {
        s
    }
}

// The terms with the last.
pub fn total(s: Frame) -> [i64; NUMBERS]
    requires { SoundFrame s }
    ensures { result ≡ f.total s }
{
    if s.minus {
        return sub(s.sum, s.term);
    }
    add(s.sum, s.term)
}

// + and -. A leading one has nothing before it.
fn on_sign(s: Frame, minus: bool) -> Frame
    requires { SoundFrame s }
    ensures { result ≡ f.on_sign s minus }
{
    if s.mode == START {
        return summed(s, s.sum, minus);
    }
    let t = total(s);
    if all_fit(t) {
        return summed(s, t, minus);
    }
    over()
}

// < and >: what stands before is the left side.
fn on_compare(s: Frame, compared: u8) -> Frame
    requires { SoundFrame s }
    ensures { result ≡ f.on_compare s compared }
{
    let t = total(s);
    if all_fit(t) {
        return sided(t, compared);
    }
    over()
}

// Right less left for < and >=, else left less right.
#[tactic(auto, using(crate::proofs::Laws::nine_smalls), unfolding(crate::specs::Frames::less))]
pub fn less(s: Frame, t: [i64; NUMBERS]) -> [i64; NUMBERS]
    requires { SoundFrame s × Nine t }
    ensures { result ≡ f.less s t }
{
    if s.compared == 1 || s.compared == 4 {
        sub(t, s.left)
    } else {
        sub(s.left, t)
    }
}

// The whole sum t, and a comparison's difference.
fn compared_with(s: Frame, t: [i64; NUMBERS]) -> Frame
    requires { SoundFrame s × Nine t }
    ensures { result ≡ f.compared_with s t }
{
    if s.compared == 0 {
        return valued(t);
    }
    if all_fit(less(s, t)) {
        return idle(HELD);
    }
    over()
}

// What a frame comes to: a sum, or a condition.
pub fn finished(s: Frame) -> Frame
    requires { SoundFrame s }
    ensures { result ≡ f.finished s }
{
    if s.mode == HELD {
        return s;
    }
    let t = total(s);
    if all_fit(t) {
        return compared_with(s, t);
    }
    over()
}

// What a byte that ends sums and conditions begins.
fn behind(k: u8) -> u8
    ensures { result ≡ f.behind k }
{
    match k {
        b'C' | b'N' => CONDITION,
        b'"' => NAME,
        _ => START,
    }
}

#[tactic(auto, unfolding(crate::specs::Frames::on_end))]
fn on_end(s: Frame, k: u8) -> Frame
    requires { SoundFrame s }
    ensures { result ≡ f.on_end s k }
{
    let c = finished(s);
    if c.beyond {
        return c;
    }
    idle(behind(k))
}

// = right behind < or >, or another.
#[tactic(auto, unfolding(crate::specs::Frames::on_equals))]
fn on_equals(s: Frame) -> Frame
    requires { SoundFrame s }
    ensures { result ≡ f.on_equals s }
{
    match s.compared {
        1 if s.mode == START => with_comparison(s, 2),
        3 if s.mode == START => with_comparison(s, 4),
        _ => on_end(s, b'='),
    }
}

#[tactic(auto, unfolding(crate::specs::Frames::on_other))]
fn on_other(s: Frame, k: u8) -> Frame
    requires { SoundFrame s }
    ensures { result ≡ f.on_other s k }
{
    match k {
        b'=' => on_equals(s),
        b'<' => on_compare(s, 1),
        b'>' => on_compare(s, 3),
        _ => on_end(s, k),
    }
}

#[tactic(auto, unfolding(crate::specs::Frames::on_mark))]
fn on_mark(s: Frame, k: u8) -> Frame
    requires { SoundFrame s }
    ensures { result ≡ f.on_mark s k }
{
    match k {
        _ if is_blank(k) => s,
        b'*' => moded(s, START),
        b'+' => on_sign(s, false),
        b'-' => on_sign(s, true),
        b'L' => moded(s, LEVEL),
        _ => on_other(s, k),
    }
}

// A number goes on as long as it lies within 32 bits.
#[tactic(auto, unfolding(crate::specs::Frames::grown))]
fn grown(s: Frame, n: u64) -> Frame
    ensures { result ≡ f.grown s n }
{
    if n <= import_linears::MOST {
        numbered(s, n)
    } else {
        over()
    }
}

#[tactic(auto, using(crate::specs::Kept::digit_small, crate::specs::Kept::level_long), unfolding(crate::specs::Frames::on_digit))]
fn on_digit(s: Frame, k: u8) -> Frame
    requires { SoundFrame s × (f.digit k ≡ true) }
    ensures { result ≡ f.on_digit s k }
{
    let d = u64::from(k - b'0');
    match s.mode {
        NUMBER => grown(s, s.number * 10 + d),
        LEVEL => factor(s, level(k)),
        CONDITION => idle(HELD),
        _ => numbered(s, d),
    }
}

// A byte that is no bracket.
pub fn step(s: Frame, k: u8) -> Frame
    requires { SoundFrame s }
    ensures { result ≡ f.step s k }
{
    if s.mode == NAME {
        if k == 34 {
            return idle(START);
        }
        return s;
    }
    if is_digit(k) {
        return on_digit(s, k);
    }
    let c = closed(s);
    if c.beyond {
        return c;
    }
    on_mark(c, k)
}

// A bracket in o that comes to c.
#[tactic(auto, unfolding(crate::specs::Frames::entered))]
fn entered(o: Frame, c: Frame) -> Frame
    requires { SoundFrame o × SoundFrame c }
    ensures { result ≡ f.entered o c }
{
    if c.mode == HELD {
        idle(HELD)
    } else {
        factor(o, c.sum)
    }
}

// ")": the frame s closes in the frame o.
pub fn popped(o: Frame, s: Frame) -> Frame
    requires { SoundFrame o × SoundFrame s }
    ensures { result ≡ f.popped o s }
{
    let c = closed(s);
    if c.beyond {
        return c;
    }
    let g = finished(c);
    if g.beyond {
        return g;
    }
    entered(o, g)
}
