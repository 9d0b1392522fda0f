// What the records and the text of a document take: definitions and laws over the tables of crate grammar, no code.
#![tactic(auto)]
