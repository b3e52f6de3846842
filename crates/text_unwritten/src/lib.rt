// No code: a body that no done step wrote is printed with the bits that were read, a NaN's too; and the loads on the I
// lines are the contacts' impulses. The definitions are in specs/.
#![tactic(auto)]
