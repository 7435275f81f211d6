// The metric of a call.
ghost use Rattle.std.specs.Prelude.{◌≡◌, IfOk};
ghost use Rattle.words.specs.Metrics.{metric_of};
ghost use Rattle.words.specs.Refusals.{RefusedIf, bad_form};
ghost use Rattle.words.specs.declared.refusal.Refusal.TheVariants.{BadValue};

use crate::refusal::Refusal;

#[derive(Clone, Copy, Debug, PartialEq, Eq, Hash)]
pub enum Metric {
    L2,
    Dot,
}

impl TryFrom<u32> for Metric {
    type Error = Refusal;

    ghost try_from_gives = { λ n r. RefusedIf (bad_form n) BadValue r × IfOk r (λ m. m ≡ metric_of n) };

    #[tactic(auto, unfolding(crate::specs::Refusals::bad_form, crate::specs::Metrics::metric_of))]
    fn try_from(n: u32) -> Result<Metric, Refusal> {
        match n {
            1 => Ok(Metric::L2),
            2 => Ok(Metric::Dot),
            _ => Err(Refusal::BadValue),
        }
    }
}
