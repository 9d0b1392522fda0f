// The table of a document (request R-3): its tree, and what the reader refuses of it. Definitions and laws, no code.
#![tactic(auto)]
