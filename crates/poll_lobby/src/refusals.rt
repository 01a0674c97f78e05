//! `Refusal`.
ghost use Rattle.std.specs.Prelude.{◌≡◌, Some, None, codes, IfOk};
ghost use Rattle.outside.specs.Stores.{code_of};
ghost use Rattle.cool_frame.specs.declared.kind.ErrorKind.TheVariants.{LoadFailed};
ghost use Rattle.poll_machine.specs.Lobby.{refusal_bytes, post_refusal};
ghost use Rattle.poll_lobby.specs.Entering.{enter_refusal};

use cool_base::{ListOf, Memory, TextOf};
use cool_frame::{ErrorKind, Frame, write_frame};
use hall_machine::HallFault;
use outside::StoreFault;
use std::alloc::Global;
use std::marker::Model;

/// Why a load is refused: the kind of its error frame, and the store's code where it has one.
#[derive(Clone, Copy, Debug)]
pub struct Refusal {
    kind: ErrorKind,
    code: Option<u16>,
}

impl Model for Refusal {
    ghost use Rattle.poll_machine.specs.House.{Refusal as Kept};

    ghost Value = { Kept };

    ghost view = { λ r. record { kind = r.kind; code = r.code } };

    ghost inverse = { λ r. record { kind = r.kind; code = r.code } };
}

impl Refusal {
    /// A refusal of this kind, without a code.
    pub fn of(kind: ErrorKind) -> Refusal
        ensures { result ≡ record { kind = kind; code = None } }
    {
        Refusal { kind, code: None }
    }

    /// The bytes of its error frame.
    pub fn frame(&self, alloc: Global) -> Result<ListOf<u8>, Memory>
        ensures { IfOk result (λ bytes. bytes ≡ refusal_bytes self.now) }
    {
        let frame = Frame::Error {
            cmd: TextOf::of(String::from_str(alloc, "load")?),
            kind: self.kind,
            code: self.code,
        };
        Ok(ListOf::of(write_frame(alloc, &frame)?))
    }
}

/// The refusal of a load for which the store answered a fault: `loadfailed` with the fault's code.
pub fn fault_refusal(fault: &StoreFault) -> Refusal
    ensures { result ≡ record { kind = LoadFailed; code = Some (code_of fault.now) } }
{
    Refusal {
        kind: ErrorKind::LoadFailed,
        code: Some(fault.code()),
    }
}

/// The refusal of a load whose file the hall doesn't open: `docsfull` or `bookfull`. None of a
/// fault that no file is refused by.
pub fn enter_refusal(fault: HallFault) -> Option<Refusal>
    ensures { result ≡ enter_refusal fault }
{
    match fault {
        HallFault::HallFull => Some(Refusal::of(ErrorKind::DocsFull)),
        HallFault::BookFull => Some(Refusal::of(ErrorKind::BookFull)),
        _ => None,
    }
}

/// The refusal of a load whose link can't be posted to the document's poll: `mailfull`, `bookfull`
/// or `docgone`. None of a fault that no mail is refused by.
pub fn post_refusal(fault: HallFault) -> Option<Refusal>
    ensures { result ≡ post_refusal fault }
{
    match fault {
        HallFault::MailFull => Some(Refusal::of(ErrorKind::MailFull)),
        HallFault::BookFull => Some(Refusal::of(ErrorKind::BookFull)),
        HallFault::Gone => Some(Refusal::of(ErrorKind::DocGone)),
        _ => None,
    }
}
