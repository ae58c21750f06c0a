// The answer to a question: its law is made of its numbers, and then asked.
ghost use Rattle.answering.specs.Answering.{Answered};
ghost use Rattle.questions.specs.Asked.{law_of, numbers_of};

use exact::bounds::Bounds;
use laws::asking::ask;
use laws::block::Block;
use laws::fault::Fault;
use laws::mill::Mill;
use laws::trapezoid::Trapezoid;
use laws::yielding::Yield;
use questions::law::asked::Asked;
use questions::question::Question;

// The floor and the ceiling of the stress that a question asks for, or the fault.
pub(crate) fn answer(question: &Question) -> Result<Bounds, Fault>
    ensures { Answered (law_of question.now.law) (numbers_of question.now.law) question.now.n question.now.m result }
{
    let (n, m) = (question.n, question.m);
    // each law is a type of its own, so each has an arm
    match &question.law {
        Asked::Block { fc } => ask(&Block::new(*fc)?, n, m),
        Asked::Trapezoid { fc } => ask(&Trapezoid::new(*fc)?, n, m),
        Asked::Yield { fy } => ask(&Yield::new(*fy)?, n, m),
        Asked::Mill { readings } => ask(&Mill::new(readings.as_slice())?, n, m),
    }
}
