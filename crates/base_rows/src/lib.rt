// No code: a stretch of rows, and what a change of one row does to the others. The definitions and
// the statements are in specs/.
#![tactic(auto)]
