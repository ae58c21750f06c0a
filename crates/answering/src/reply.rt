// The reply to one line.
ghost use Rattle.std.specs.Prelude.{IfOk, Some};
ghost use Rattle.answering.specs.Replies.{Replied, reply_text};

use crate::answer::answer;
use exact::bounds::Bounds;
use laws::fault::Fault;
use questions::question::question_asked;
use std::alloc::{AllocError, Global};
use std::fmt;
use text::runs::first_piece;

/// What is replied to a line.
// three cases, so no Result
#[derive(Clone, Copy)]
pub enum Reply {
    /// the floor and the ceiling of the stress that the line asks for
    Stress(Bounds),
    /// why there is no such stress
    Refused(Fault),
    /// the line asks nothing
    Unreadable,
}

/// The reply to a line, or none where the line has no pieces.
pub fn reply_to(heap: Global, line: &[u8]) -> Result<Option<Reply>, AllocError>
    ensures { IfOk result (λ o. Replied line.now o) }
{
    if first_piece(line).is_none() {
        return Ok(None);
    }
    let Some(question) = question_asked(heap, line)? else {
        return Ok(Some(Reply::Unreadable));
    };
    match answer(&question) {
        Ok(bounds) => Ok(Some(Reply::Stress(bounds))),
        Err(fault) => Ok(Some(Reply::Refused(fault))),
    }
}

impl fmt::Display for Reply {
    ghost output = { λ r. Some (reply_text r) };

    fn fmt<W: fmt::Write>(&self, f: &mut fmt::Formatter<W>) -> fmt::Result {
        match *self {
            Reply::Stress(Bounds { floor, ceiling }) => write!(f, "{floor} {ceiling}"),
            Reply::Refused(fault) => write!(f, "{fault}"),
            Reply::Unreadable => write!(f, "unreadable"),
        }
    }
}
