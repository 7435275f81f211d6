// How the records of a walk are laid out.
ghost use Rattle.std.specs.Prelude.{◌≡◌, ◌≤◌, IfOk};
ghost use Rattle.words.specs.Limits.{most_records};
ghost use Rattle.words.specs.Refusals.{RefusedIf, bad_form};
ghost use Rattle.words.specs.declared.refusal.Refusal.TheVariants.{BadValue};
ghost use Rattle.walk.specs.Walk.{layout_of, records_size};

use block::parts::block_size;
use code::parts::code_size;
use words::{Dims, MOST_DIMS, Refusal};

#[derive(Clone, Copy, Debug, PartialEq, Eq, Hash)]
pub enum Layout {
    Single,
    Blocks,
}

impl TryFrom<u32> for Layout {
    type Error = Refusal;

    ghost try_from_gives = { λ n r. RefusedIf (bad_form n) BadValue r × IfOk r (λ l. l ≡ layout_of n) };

    #[tactic(auto, unfolding(words::specs::Refusals::bad_form, crate::specs::Walk::layout_of))]
    fn try_from(n: u32) -> Result<Layout, Refusal> {
        match n {
            1 => Ok(Layout::Single),
            2 => Ok(Layout::Blocks),
            _ => Err(Refusal::BadValue),
        }
    }
}

impl Layout {
    // How many bytes n records take.
    #[tactic(auto, unfolding(crate::specs::Walk::records_size))]
    pub fn records_size(self, dims: Dims<MOST_DIMS>, n: usize) -> usize
        requires { n ≤ most_records }
        ensures { result ≡ records_size self dims n }
    {
        match self {
            Layout::Single => n * code_size(dims),
            Layout::Blocks => n.div_ceil(32) * block_size(dims),
        }
    }
}
