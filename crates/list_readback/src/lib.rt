// No code: what a done step leaves in the tables, read again, is what it worked out. The statements
// are in specs/.
#![tactic(auto)]
