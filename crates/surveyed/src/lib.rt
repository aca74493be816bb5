// 01's surveyed examples, computed from the definitions: there is nothing to run.
#![tactic(auto)]
