// A built graph can be printed, and the printing program's area holds its text. Laws.
#![tactic(auto)]
