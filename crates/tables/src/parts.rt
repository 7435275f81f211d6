// The workers, for callers that have judged their inputs.
pub mod distance;
pub mod table;
