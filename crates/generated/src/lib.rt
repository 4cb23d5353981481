// The generated run: threads without store buffers, that step by the edge records alone. Definitions and laws.
#![tactic(auto)]

use thread::Node;

// a generated thread: its node, its registers and an auxiliary value for each line
#[derive(Clone, Copy)]
pub struct Generated {
    pub node: Node,
    pub registers: [u32; 16],
    pub auxiliaries: [u32; 64],
}
