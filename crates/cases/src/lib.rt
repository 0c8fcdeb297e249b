// The treasurer's cases: one table and one claim, in specs/.
#![tactic(auto)]
