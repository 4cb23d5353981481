// The buffered run: threads with store buffers, by the buffer rules.
#![tactic(auto)]
