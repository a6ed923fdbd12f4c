//! The words of the command line: the plan that they are, or that they are none.
#![tactic(auto)]

mod command_line;
mod numbers;
mod options;
mod plans;
mod reading;

pub use plans::{Plan, PlanError, one_plan};
pub use reading::plan_of;
