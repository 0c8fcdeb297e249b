// Mathematics only: there is no code here. Both round trips, a book read and written again and a table written and read again,
// are laws of the reader's and the writer's definitions, in proofs/BookTripLaws.antt.
#![tactic(auto)]
