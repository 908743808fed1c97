// How a model is written: as the planner reads it, or as before K5. What differs is named here and nowhere else.
#![tactic(auto, unfolding(crate::specs::Forms::form_of))]

ghost use Rattle.std.specs.Prelude.{◌≡◌, ◌<◌};
ghost use Rattle.theory.specs.Form.{site_byte, levels_in, actions_in, action_bytes, forbidden_bytes, linear_bytes, behind_action};
ghost use Rattle.model_form.specs.Forms.{form_of};

use whole::COEFFICIENTS;

// "m up to 8"
pub const LEVELS: usize = COEFFICIENTS;

// "n conditions (0 to 4)"
pub const CONDITIONS: usize = 4;

// "A as two bytes (1 to 400)"
pub const ACTIONS: usize = 400;

#[derive(Clone, Copy)]
pub enum Form {
    Old,
    New,
}

impl Form {
    // "Site becomes 02"; before, "01 site".
    pub fn site_byte(self) -> u8
        ensures { result ≡ site_byte (form_of self) }
    {
        match self {
            Form::Old => 0x01,
            Form::New => 0x02,
        }
    }

    // "A linear has eight coefficients"; before, four.
    pub fn levels(self) -> usize
        ensures { (result ≡ levels_in (form_of self)) × (result < 16) }
    {
        match self {
            Form::Old => 4,
            Form::New => LEVELS,
        }
    }

    // "A as two bytes (1 to 400)"; before, 1 to 8.
    pub fn actions(self) -> usize
        ensures { result ≡ actions_in (form_of self) }
    {
        match self {
            Form::Old => 8,
            Form::New => ACTIONS,
        }
    }

    // "Action operands are two bytes everywhere"; before, one.
    pub fn action_bytes(self) -> usize
        ensures { (result ≡ action_bytes (form_of self)) × (result < 16) }
    {
        match self {
            Form::Old => 1,
            Form::New => 2,
        }
    }

    // "Command 13 pushes a leaf "forbidden"", one byte; the old form has it not.
    pub fn forbidden_bytes(self) -> usize
        ensures { (result ≡ forbidden_bytes (form_of self)) × (result < 16) }
    {
        match self {
            Form::Old => 0,
            Form::New => 1,
        }
    }

    // The bytes of a linear: its coefficients, then a constant.
    pub fn linear_bytes(self) -> usize
        ensures { (result ≡ linear_bytes (form_of self)) × (result < 256) }
    {
        (self.levels() + 1) * 4
    }

    // What stands behind a command's action: an index, or a name.
    pub fn behind_action(self) -> usize
        ensures { (result ≡ behind_action (form_of self)) × (result < 256) }
    {
        1 + self.action_bytes()
    }
}
