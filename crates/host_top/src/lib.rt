//! The program as a function: the words of a command, a script, a capture and an output go in, and a status comes out. Beside it
//! stand the words, the capture file and the standard output of a process.
#![tactic(auto)]

pub mod address_text;
pub mod arguments;
pub mod capture_command;
pub mod capture_file;
pub mod command;
pub mod disturb_command;
pub mod ending;
pub mod generator;
pub mod host_main;
mod ipv4_word;
pub mod lazy_file;
pub mod output;
mod printer;
pub mod query_text;
pub mod report_text;
mod running;
pub mod serve_command;
pub mod serve_text;
pub mod setting;
pub mod show_command;
pub mod summary;
pub mod text;
pub mod usage;
pub mod word;
