// The printed form of a graph and of a refusal: definitions and laws, and why there is none.
#![tactic(auto)]

// why there is no text
#[derive(Clone, Copy, Debug, PartialEq, Eq)]
pub enum PrintError {
    TooSmall,
    NotAGraph,
}
