//! Theorems about SQLite tables with an integer key: each is a finite map, and the statements on it are the operations
//! of the map. There is no code; all of it is in `specs/` and `proofs/`.
#![tactic(auto)]
