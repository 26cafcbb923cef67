// The plain ledger that an index is compared with, the runs of an index, and what it means for a run to be lawful.
#![tactic(auto)]
