// The numbers of the model's site.
ghost use Rattle.std.specs.Prelude.{◌≡◌, ◌^◌};
ghost use Rattle.theory.specs.Load.{site_at};
ghost use Rattle.plain_step.specs.PointState.{ModelReady};

pub fn levels(model: &[u8]) -> u8
    ensures { result ≡ (site_at model.now).levels }
{
    model::site(model).levels
}

pub fn conditions(model: &[u8]) -> u8
    ensures { result ≡ (site_at model.now).conditions }
{
    model::site(model).conditions
}

pub fn actions(model: &[u8]) -> u16
    ensures { result ≡ (site_at model.now).actions }
{
    model::site(model).actions
}

pub fn weights(model: &[u8]) -> u8
    ensures { result ≡ (site_at model.now).weights }
{
    model::site(model).weights
}

// How many settings the next conditions have.
pub fn settings(model: &[u8]) -> u32
    requires { ModelReady model.now }
    ensures { result ≡ 2 ^ (site_at model.now).conditions }
{
    1 << conditions(model)
}
