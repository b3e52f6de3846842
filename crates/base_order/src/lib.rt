// No code: a list of steps done one by one, for any device, and which reorderings of it are harmless.
// The definitions are in specs/.
#![tactic(auto)]
