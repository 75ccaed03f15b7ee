// An answer as numbers, for hosts in other languages.
#![tactic(auto)]

ghost use Rattle.plan.specs.Answer.{parts_of, refused};
ghost use Rattle.host_reply.specs.Reply.{Replied};

use numbers::OBJECT_SIZE;
use plan::Answer;
use refusals::Refusal;

// The kind of a reply that has no object.
pub const NO_OBJECT: u32 = 5;

// An answer: the number of a refusal, 0 if there is none; a handle, colour, alignment or advance; a flag, 0 or 1; the old position
// of a DC that was moved; a removed object's kind and its numbers, as in a record.
#[repr(C)]
#[derive(Clone, Copy, Debug, PartialEq, Eq)]
pub struct Reply {
    pub refusal: u32,
    pub value: u32,
    pub flag: u32,
    pub x: i32,
    pub y: i32,
    pub kind: u32,
    pub fields: [u32; OBJECT_SIZE],
}

impl Reply {
    // An accepted call that answers nothing.
    const DONE: Reply = Reply {
        refusal: 0,
        value: 0,
        flag: 0,
        x: 0,
        y: 0,
        kind: NO_OBJECT,
        fields: [0; OBJECT_SIZE],
    };
}

// Returns the reply for a refusal of this number, whichever it is.
pub fn refused(number: u32) -> Reply
    ensures { Replied (refused number) result }
{
    Reply {
        refusal: number,
        ..Reply::DONE
    }
}

// Returns the reply for an answer.
pub fn reply_of(answer: Result<Answer, Refusal>) -> Reply
    ensures { Replied (parts_of answer) result }
{
    match answer {
        Err(refusal) => refused(refusal.number()),
        Ok(Answer::Handle(value) | Answer::OldAlign(value)) => Reply {
            value,
            ..Reply::DONE
        },
        Ok(Answer::OldColor(color)) => Reply {
            value: color.0,
            ..Reply::DONE
        },
        Ok(Answer::Advance(advance)) => Reply {
            value: advance,
            ..Reply::DONE
        },
        Ok(Answer::Deleted(flag) | Answer::OldMode(flag)) => Reply {
            flag: u32::from(flag),
            ..Reply::DONE
        },
        Ok(Answer::OldPosition(at)) => Reply {
            x: at.x,
            y: at.y,
            ..Reply::DONE
        },
        Ok(Answer::Removed(object)) => {
            let mut reply = Reply::DONE;
            reply.kind = encode::put_object(&mut reply.fields, object);
            reply
        }
        Ok(Answer::NotRemoved | Answer::Drawn) => Reply::DONE,
    }
}
