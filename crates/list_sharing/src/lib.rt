// No code: what two steps on the tables share, and that a step reads and writes only rows of its own. The definitions are in specs/.
#![tactic(auto)]
