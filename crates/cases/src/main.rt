// Answers questions about text, identifiers, bytes and tables, from standard input to standard
// output, one line for each. oracle/FORMAT.md has the format; `oracle cases` answers the same
// questions by the original. `call_cases` has the questions about commands, observations and the
// retired test: a check loads the proofs of all that is called, and those of one program for all
// are too many.

#![tactic(auto)]

mod bytes;
mod reply;

use questions::answer::answer_all;
use reply::reply_to;

fn main(rt: HostRuntime) {
    answer_all(&mut rt.stdin(), &rt, reply_to);
}
