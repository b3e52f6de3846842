// No code: the marked examples of document 01 and the errors that a porter would make, as
// statements about the definitions of the element layer. They stand in specs/.
#![tactic(auto)]
