// The codes: error codes are negative numbers, and zero means E_OK.
ghost use Rattle.std.specs.Prelude.{◌≡◌};
ghost use Rattle.itron.specs.Codes.{code_of, number_of, status_code};

pub const E_OK: i32 = 0;

/// Why a call is refused, or how a wait ended: E_SYS, E_NOMEM and so on.
#[derive(Clone, Copy, Debug, PartialEq, Eq)]
pub enum Code {
    Sys = -5,
    NoMem = -10,
    RsAtr = -24,
    Par = -33,
    Id = -35,
    NoExs = -52,
    Obj = -63,
    Ctx = -69,
    QOvr = -73,
    Dlt = -81,
    TmOut = -85,
    RlWai = -86,
}

impl Code {
    /// Its number in C.
    pub fn number(self) -> i32
        ensures { result ≡ number_of self }
    {
        self as i32
    }
}

// A wait that begins, or goes on.
const WAITING: i32 = 100;

// tmout for ever, and not at all.
pub const TMO_FEVR: i32 = -1;

pub const TMO_POL: i32 = 0;

/// A task's answer as a code: 0 and 100 stay, 6, 7 and 13 are the endings of a wait, any other number is E_SYS.
#[tactic(auto, using(laws::proofs::Choose::cases), unfolding(crate::specs::Codes::code_of))]
pub fn code_of(answer: u32) -> i32
    ensures { result ≡ code_of answer }
{
    match answer {
        rules::SUCCESSFUL => E_OK,
        rules::WAITING => WAITING,
        rules::TIMEOUT => Code::TmOut.number(),
        rules::OBJECT_WAS_DELETED => Code::Dlt.number(),
        rules::UNSATISFIED => Code::RlWai.number(),
        _ => Code::Sys.number(),
    }
}

/// A Classic call's status as a code, where one of its refusals has a code of its own.
#[tactic(auto, using(laws::proofs::Choose::cases, crate::proofs::Signed::read), unfolding(crate::specs::Codes::status_code))]
pub fn status_code(refusal: u32, code: i32, status: u32) -> i32
    ensures { result ≡ status_code refusal code status }
{
    if status == refusal {
        code
    } else {
        code_of(status)
    }
}
