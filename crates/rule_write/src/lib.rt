// The bytes of a rule's parts, and of a rule: specs/ says them, and no function is needed to write them, since a rule's bytes are copied where
// they lie.
#![tactic(auto)]
