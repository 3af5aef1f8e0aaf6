// A rule file and a pool file: their verdict, and the program's text.
#![tactic(auto)]

mod counting;
mod files;
mod loading;
mod printing;

pub use files::check_files;
pub use printing::report;
