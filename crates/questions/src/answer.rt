// What the programs that answer questions do.
use crate::input::{Asked, LONGEST_BODY, next_question};
use crate::question::Question;
use crate::reply::Reply;
use std::io;
use std::io::{ErrorKind, Read};

// Answers one question after another, from the input to the output, by `reply_to`, which gives no
// reply where the body is not of the question's form. It ends where nobody reads its output any
// more; a write that fails for another reason is passed over. The turns are counted, since nothing
// says that the input ends.
pub fn answer_all<F: Fn(Question, &[u8]) -> Option<Reply>>(
    input: &mut impl Read,
    output: &impl Print,
    reply_to: F,
)
    requires { F.IsAlwaysCallable reply_to }
{
    let mut buffer = [0; LONGEST_BODY];
    let mut read = is_read(println!(output; "cases 1"));
    for number in 1..u64::MAX {
        if !read {
            break;
        }
        let Some(Asked { mark, body }) = next_question(&mut buffer, input) else {
            break;
        };
        let reply = match (mark.question(), body) {
            (Some(question), Some(body)) => reply_to(question, body),
            _ => None,
        };
        let reply = reply.unwrap_or(Reply::Malformed);
        read = is_read(println!(output; "{number} {mark} {reply}")) && body.is_some();
    }
}

// Whether somebody may still read what is written.
fn is_read(written: io::Result<()>) -> bool {
    !matches!(written, Err(error) if error.kind() == ErrorKind::BrokenPipe)
}
