// The listing program's input: a horizon byte, then a model.
#![tactic(auto)]

ghost use Rattle.std.specs.Prelude.{◌≡◌, ltb, length};
ghost use Rattle.text_input.specs.Printed.{model_most, horizon_of, model_of};

// The longest model that the program takes, in bytes.
pub const MODEL_MOST: usize = 65535;

// Whether a model is longer than that.
pub fn too_long(model: &[u8]) -> bool
    ensures { result ≡ ltb model_most (length model.now) }
{
    MODEL_MOST < model.len()
}

// "empty input counts as horizon 0"
pub fn horizon(input: &[u8]) -> u32
    ensures { result ≡ horizon_of input.now }
{
    match input.first() {
        Some(&b) => u32::from(b),
        None => 0,
    }
}

// What stands behind the horizon byte.
pub fn model(input: &[u8]) -> &[u8]
    ensures { result.now ≡ model_of input.now }
{
    match input.split_first() {
        Some((_, model)) => model,
        None => input,
    }
}
