//! The command line: its words, what is printed, and the top call `igneous`, which carries the end-to-end promises. It
//! stands on the stages that a command makes and runs (`ig_stage`), on the worker of a queue (`ig_worker`), on stores and
//! sinks (`ig_store`) and on the definitions of what a command means (`ig_meaning`).
#![tactic(auto)]

mod causes;
mod command;
mod done;
mod lines;
mod options;
mod plan_words;
mod queue_words;
mod report;
mod rule;
mod words;
mod worker_lines;
mod working;

pub use command::igneous;
pub use ig_task::{Pipeline, Role};
pub use plan_words::read_plan;
pub use rule::rule_of;
pub use worker_lines::{end_line, line_of};
pub use working::work;
