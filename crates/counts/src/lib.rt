#![tactic(auto)]

// The monitoring centre's counts (Card 1 of document 02): the text and what it says as definitions, what is left of a text that is taken as a
// theorem; no code.
