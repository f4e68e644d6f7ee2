// Pages given in order to a collector, and the theorems on messages of several pages. There is no code here.
#![tactic(auto)]
