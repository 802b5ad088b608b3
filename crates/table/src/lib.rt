// The worked examples of document 01, computed from the rules alone: a table of definitions, and no code.
#![tactic(auto)]
