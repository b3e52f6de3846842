// No code: one step on the tables and a list of steps, one by one, as definitions, and laws about them. An engine is
// above: it meets these rules by an equation, and nothing here hangs on how it does.
#![tactic(auto)]
