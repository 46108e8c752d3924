// The entries of two tables, active pages and roots, beyond what every table does. Each function is equal to its rule over the table's list.
#![tactic(auto)]

pub mod pages;
pub mod roots;
