// No code: what is written of a night that was read and of any input, byte by byte, as definitions; how long it can be, as
// a statement. The programs that write it stand above.
#![tactic(auto)]
