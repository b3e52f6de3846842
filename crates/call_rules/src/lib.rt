// No code: a call by its plain one-by-one definition, and what the user demands of whatever meets it. The definitions and
// the statements are in specs/.
#![tactic(auto)]
