// The rehearsal of a book under a schedule, and that its counts are the events done by the plain machine's parties.
// Meaning only: what is proved stands in specs/, and no function is here.
#![tactic(auto)]
