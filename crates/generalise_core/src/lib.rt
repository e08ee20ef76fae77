//! The program's top call: from the words and the files to the certificate and the report.
#![tactic(auto)]

mod check_run;
mod check_stop;
mod check_words;
mod checking;
mod command;
mod decision;
mod draft;
mod formats;
mod most_splits;
mod plan;
mod report;
mod saying;
mod setting;
mod status;
mod stop;
mod text;
mod top;
mod words;

use check_run::check;
use check_words::is_check;
pub use command::run;
use decision::decide;
use plan::{NoPlan, Plan, make_plan};
use saying::say_and_end;
pub use status::Status;
use stop::Stop;
use top::generalise_words;
use words::{Names, Order, read_words};

#[cfg(test)]
mod check_tests;
#[cfg(test)]
mod map_tests;
#[cfg(test)]
mod row_tests;
#[cfg(test)]
mod tests;
