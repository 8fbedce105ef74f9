#![tactic(auto)]

// Demand 3: a controller, a printer and a radio that loses, repeats and reorders.
