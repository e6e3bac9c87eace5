// Demand 3 as the contracts of the entries state it: premises on the values lent, and the claim about a whole run. Definitions and laws alone.

#![tactic(auto)]
