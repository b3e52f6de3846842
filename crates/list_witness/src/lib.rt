// No code: feet worked out in numbers, to show in which orders steps come to the same and in which not.
// The statements are in specs/.
#![tactic(auto)]
