// The rules that need only a command and the site: "operands 4".
ghost use Rattle.std.specs.Prelude.{◌≡◌, ◌&&◌, eqb, ltb, ℕ, ◌+◌, ◌*◌, ◌≤◌, pos, length, take, drop};
ghost use Rattle.std.specs.Int.Signed.{le_z};
ghost use Rattle.theory.specs.Widths.{name_bytes};
ghost use Rattle.theory.specs.Form.{linear_bytes};
ghost use Rattle.model_form.specs.Forms.{form_of};
ghost use Rattle.theory.specs.Diagram.{zeros as zeros_in};
ghost use Rattle.theory.specs.Valid.{all};
ghost use Rattle.theory.specs.Valid.{among as is_among};
ghost use Rattle.theory.specs.Verdict.{or, next_condition, first_broken, site_rules, site_of, is_weight, of_site, same_slot, end_slot, beyond};
ghost use Rattle.model_progress.specs.GivenFlags.{site_as};
ghost use Rattle.whole.specs.Cases.{if};
ghost use Rattle.theory.specs.Verdict.{printable as is_printable};
ghost use Rattle.theory.specs.Command.{signed, signed_from, linear_in};

use super::Site;
use super::refusals::OPERAND;
use model_command::NAME_BYTES;
use model_form::{CONDITIONS, Form};

// "weight total W (1 to 100)".
const WEIGHTS: usize = 100;

// 1 to n.
pub fn among(n: usize, k: usize) -> bool
    ensures { result ≡ is_among n k }
{
    1 <= k && k <= n
}

// n numbers from an offset on are zero: as words, no sign is needed.
pub fn zeros(model: &[u8], from: usize, n: usize) -> bool
    requires { from + n * 4 ≤ length model.now }
    ensures { result ≡ zeros_in (signed_from model.now from n) }
{
    for i in 0..n {
        if model_command::word(model, from + i * 4) != 0 {
            return false;
        }
    }
    true
}

// "Coefficients beyond level m are zero", of the linear at an offset.
pub fn beyond(form: Form, model: &[u8], from: usize, m: u8) -> bool
    requires { from + linear_bytes (form_of form) ≤ length model.now }
    ensures { result ≡ beyond m (linear_in (form_of form) model.now from) }
{
    let levels = form.levels();
    let k = usize::from(m);
    k < levels && !zeros(model, from + k * 4, levels - k)
}

// "A test has some coefficient not zero": whether the linear at an offset has none.
pub fn is_constant(form: Form, model: &[u8], from: usize) -> bool
    requires { from + linear_bytes (form_of form) ≤ length model.now }
    ensures { result ≡ zeros_in (linear_in (form_of form) model.now from).coeffs }
{
    zeros(model, from, form.levels())
}

// How many coefficients of the linear at an offset count: those up to the last that is not zero. As words, no sign is needed.
pub fn used(form: Form, model: &[u8], from: usize) -> usize
    requires { from + linear_bytes (form_of form) ≤ length model.now }
    ensures { (m : ℕ) → ltb m result ≡ beyond m (linear_in (form_of form) model.now from) }
{
    for last in (0..form.levels()).rev() {
        if model_command::word(model, from + last * 4) != 0 {
            return last + 1;
        }
    }
    0
}

fn weight_of(w: u8, n: u32) -> bool
    ensures { result ≡ (le_z (pos 0) (signed n) && le_z (signed n) (pos w)) }
{
    n <= u32::from(w)
}

// A constant 0 to W, of the linear at an offset: few linears have such a last number, so that is asked first.
pub fn weight(form: Form, model: &[u8], from: usize, w: u8) -> bool
    requires { from + linear_bytes (form_of form) ≤ length model.now }
    ensures { result ≡ is_weight w (linear_in (form_of form) model.now from) }
{
    let constant = from + form.levels() * 4;
    weight_of(w, model_command::word(model, constant)) && used(form, model, from) == 0
}

// "1 to n for a condition now, 5 to 4+n for the next step's"
pub fn condition(n: u8, k: u8) -> bool
    ensures { result ≡ or (is_among n k) (next_condition n k) }
{
    let most = usize::from(n);
    let i = usize::from(k);
    among(most, i) || CONDITIONS < i && among(most, i - CONDITIONS)
}

fn index(site: Site, command: u8, i: u8) -> bool
    ensures { result ≡ if (eqb command 0x20) (eqb i 0) (if (eqb command 0x21) (is_among site.conditions i) (eqb command 0x22 && is_among site.levels i)) }
{
    match command {
        0x20 => i == 0,
        0x21 => among(usize::from(site.conditions), usize::from(i)),
        0x22 => among(usize::from(site.levels), usize::from(i)),
        _ => false,
    }
}

// "23 takes one diagram off the stack as the end worth, with no operand"
fn end_worth(command: u8, a: u16, i: u8) -> bool
    ensures { result ≡ same_slot (record { command = command; action = a; index = i }) end_slot }
{
    command == 0x23 && a == 0 && i == 0
}

// "20 reward: action", "21 chance: action, condition", "22 next level: action, level": each is one of the site's.
pub fn slot(site: Site, command: u8, a: u16, i: u8) -> bool
    ensures { result ≡ of_site (site_as site) (record { command = command; action = a; index = i }) }
{
    end_worth(command, a, i)
        || among(usize::from(site.actions), usize::from(a)) && index(site, command, i)
}

fn printable(b: u8) -> bool
    ensures { result ≡ is_printable b }
{
    0x20 <= b && b <= 0x7e
}

// Whether the bytes of a name from an offset on are printable.
pub fn text(model: &[u8], from: usize) -> bool
    ensures { result ≡ all is_printable (take name_bytes (drop from model.now)) }
{
    let end = model.len().min(from.saturating_add(NAME_BYTES));
    for at in from..end {
        if !printable(model[at]) {
            return false;
        }
    }
    true
}

// m 1 to 8, n 0 to 4, A 1 to 400, W 1 to 100; before K5, m 1 to 4 and A 1 to 8.
pub fn site(form: Form, m: u8, n: u8, a: u16, w: u8) -> u32
    ensures { result ≡ first_broken (site_rules (form_of form) (site_of m n a w)) }
{
    if among(form.levels(), usize::from(m))
        && usize::from(n) <= CONDITIONS
        && among(form.actions(), usize::from(a))
        && among(WEIGHTS, usize::from(w))
    {
        0
    } else {
        OPERAND
    }
}
