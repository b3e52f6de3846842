// No code: a file of recorded nights, what is said of each day, and that it may be read in portions.
// The definitions are in specs/.
#![tactic(auto)]
