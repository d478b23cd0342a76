//! Cases as files: the reader of scenario files and their runner.
//!
//! docs/SCENARIOS.md has the form of the files. A program gives the layers that its files name, as one type with
//! [`Layer`](layers::Layer), and calls [`run_files`](running::run_files); everything else is here:
//!
//! - `reading`: a file's cases, or the line of what is wrong in its form;
//! - `layers`: what a layer does, and what its steps may refuse;
//! - `texts`: lines of text in steps, and text in answers;
//! - `words`: bytes, numbers and replicas in words and answers;
//! - `comparing`: the first difference between the answers expected and those given;
//! - `running`: all cases of the files that the program's words name, and the report.
#![tactic(auto)]

pub mod comparing;
pub mod layers;
pub mod reading;
pub mod running;
pub mod texts;
pub mod words;
