// What the rules say at a row of two tables that are accepted, which row then stands, and who is ahead. Only read.

#![tactic(auto)]

pub mod ruling;
