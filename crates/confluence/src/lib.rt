// Demand 3: for a cleared book every permitted order has one end. It is in specs/.
#![tactic(auto)]
