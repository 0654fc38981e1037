// Answers questions about commands, observations and the retired test, from standard input to
// standard output, one line for each. oracle/FORMAT.md has the format; `cases` answers the other
// questions, and `oracle cases` all of them by the original.

#![tactic(auto)]

mod reply;

use questions::answer::answer_all;
use reply::reply_to;

fn main(rt: HostRuntime) {
    answer_all(&mut rt.stdin(), &rt, reply_to);
}
