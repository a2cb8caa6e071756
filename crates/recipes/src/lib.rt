//! `recipes`: what a program does with both enums. Each recipe is a file of a few lines under a contract that says what is wanted
//! of it; none has a proof of its own. `test_recipes` has a result of each.
#![tactic(auto)]

pub mod accounts;
pub mod batch;
pub mod budget;
pub mod changes;
pub mod closures;
pub mod difference;
pub mod enrolment;
pub mod files;
pub mod grouped;
pub mod keys;
pub mod layers;
pub mod ledger;
pub mod lined_up;
pub mod loans;
pub mod matched;
pub mod merged;
pub mod orders;
pub mod origins;
pub mod own_join;
pub mod parcels;
pub mod partners;
pub mod patched;
pub mod preferences;
pub mod profile;
pub mod readers;
pub mod readings;
pub mod readme;
pub mod revision;
pub mod serialized;
pub mod settings;
pub mod signs;
pub mod stock;
pub mod tariffs;
pub mod three_tables;
pub mod totals;
pub mod upsert;
pub mod verdicts;
pub mod writing;
