// Theorems about recorder and desk: the rows of document 01, and the demands of the letter. No code.
#![tactic(auto)]
