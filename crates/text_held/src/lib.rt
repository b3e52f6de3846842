// No code: what a text can say that the program's tables hold, and how many lines of it there can be, as statements.
// The definitions are in specs/.
#![tactic(auto)]
