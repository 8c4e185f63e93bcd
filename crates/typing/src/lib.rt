// Authenticity types: terms, types, effects, processes and judgements of the shared-key part, the rules, derivations as words, and
// their verdict. Meaning only: what is proved stands in specs/, and no function is here.
#![tactic(auto)]
