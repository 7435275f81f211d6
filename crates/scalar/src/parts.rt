// The workers, for callers that have judged their inputs.
pub mod code;
pub mod vectors;
