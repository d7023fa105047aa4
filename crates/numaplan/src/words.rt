//! Doing the jobs of subcommands, a file for each.
pub mod asked;
pub mod by_node;
pub mod meant;
pub mod replay;
pub mod report;
pub mod report_page;
pub mod report_rules;
pub mod storm;
pub mod texts;
