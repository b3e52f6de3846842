// No code: loads never pull, whatever the list. The statements are in specs/.
#![tactic(auto)]
