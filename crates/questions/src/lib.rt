// Questions about single calls, in the form of oracle/FORMAT.md: one is read from standard input,
// and a line is written for it. The programs that answer them are `cases` and `call_cases`.

#![tactic(auto)]

pub mod answer;
pub mod input;
pub mod question;
pub mod reply;
