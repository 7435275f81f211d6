// One pass over the reranker's lists: how many NaNs and bad marks there are, how many places do not wait, and the least estimate of a
// waiting place and distance of an asked one, as keys.
#![tactic(auto)]

pub use lists::Lists;
pub use pass::{Keys, Least, NO_KEY, Scan, first_at};

mod lists;
mod pass;
