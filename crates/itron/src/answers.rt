// The answers of the calls.
ghost use Rattle.std.specs.Prelude.{◌≡◌, leb, pos};
ghost use Rattle.laws.specs.Choose.{bit};
ghost use Rattle.itron.specs.Codes.{number_of, code_of, status_code};
ghost use Rattle.itron.specs.Calls.{no_code, told_nothing};

use super::codes::Code;
use super::{Coded, Reference, codes};
use rules::Answer;

/// What a refused call answers. `next` is the next task of the tables, which stay as they are.
pub fn refused(code: Code, next: u32) -> Coded
    ensures { result ≡ record { code = number_of code; next = next } }
{
    Coded {
        code: code.number(),
        next,
    }
}

/// What tables or a list that do not agree are answered.
pub fn disagreed() -> Coded
    ensures { result ≡ no_code }
{
    refused(Code::Sys, 0)
}

/// What a Classic call answered of whose refusals none has a code of its own.
pub fn plain(a: Answer) -> Coded
    ensures { result ≡ record { code = code_of a.status; next = a.next } }
{
    Coded {
        code: codes::code_of(a.status),
        next: a.next,
    }
}

/// What a Classic call answered, `code` for the one refusal of its own that it may have.
pub fn over(a: Answer, refusal: u32, code: i32) -> Coded
    ensures { result ≡ record { code = status_code refusal code a.status; next = a.next } }
{
    Coded {
        code: codes::status_code(refusal, code, a.status),
        next: a.next,
    }
}

/// What a refused ref_sem answers.
pub fn told_nothing(code: i32, next: u32) -> Reference
    ensures { result ≡ told_nothing code next }
{
    Reference {
        code,
        next,
        exinf: 0,
        wtsk: 0,
        semcnt: 0,
    }
}

/// 1 if a task waits, else 0.
#[tactic(auto, using(crate::proofs::Signed::read), unfolding(laws::specs::Choose::choose))]
pub fn wtsk_of(waiters: u32) -> i32
    ensures { result ≡ pos (bit (leb 1 waiters)) }
{
    i32::from(1 <= waiters)
}
