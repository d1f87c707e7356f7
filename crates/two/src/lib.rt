// What two tables have in common: their shape, and which floors name a later count of the other. Only read.

#![tactic(auto)]

pub mod later;
pub mod shape;
