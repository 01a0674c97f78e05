//! `Saves`.
ghost use Rattle.std.specs.Prelude.{◌≡◌, ◌↔◌, true, Err, IsTrue, IfOk, OnOk, OnErr, nat_eq, length, is_some, option_copied, option_map};
ghost use Rattle.save_core.specs.declared.values.SaveFault.TheVariants.{SavesFull as TooMany};
ghost use Rattle.save_core.specs.Saving.{opening, last_stored, is_full, waits, is_ready, served, errand_for, unmodified, answered_put, answered, answered_token, answers, token_kept, final_waits, has_mark, is_for};

use crate::lists::{
    end, endings, has_mark, is_any_ready, is_full, put_token, serve, store, token_for, unmodified,
};
use crate::values::{Put, Save, SaveAnswer, SaveFault, Started};
use bytes::Bytes;
use cool_base::{FileId, Memory, Ticket, Token, ViewId};
use outside::{Errand, Receipt};
use std::alloc::Global;
use std::marker::Model;

/// What a document knows of its saves. Each change that answers an `Err` leaves it as it was.
#[derive(Drop)]
pub struct Saves {
    stored: Vec<u64>,
    saves: Vec<Save>,
    put: Option<Put>,
    // The token kept for final saves, and a copy of it that the next final save takes.
    kept: Option<Token>,
    spare: Option<Token>,
    next_ticket: u64,
}

impl Model for Saves {
    ghost use Rattle.std.specs.Prelude.{length, vec_capacity, is_some};
    ghost use Rattle.save_core.specs.Saving.{Saving, IsRoomy};

    ghost Value = { Saving };

    ghost view = { λ s. record { stored = s.stored.items; saves = s.saves.items; put = s.put; last_token = s.kept; has_room = is_some s.spare; next_ticket = s.next_ticket } };

    ghost invariant = { λ s. IsRoomy s.kept s.spare (length s.saves.items) (vec_capacity s.saves) };
}

impl Saves {
    /// The loaded file is stored, and no save waits.
    pub fn new(alloc: Global) -> Result<Saves, Memory>
        ensures { IfOk result (λ saves. saves ≡ opening) }
    {
        let mut stored = Vec::new(alloc);
        stored.push(0)?;
        Ok(Saves {
            stored,
            saves: Vec::new(alloc),
            put: None,
            kept: None,
            spare: None,
            next_ticket: 1,
        })
    }

    /// A save waits whose view, where it has one, is to be answered: with this mark, which is how
    /// many inputs the stored content must hold. With `skip` it needs no put where nothing is new.
    /// `SavesFull` exactly where the view has `MOST_SAVES` saves that are not answered, judged
    /// before memory is taken.
    pub fn wait(
        &mut self,
        view: Option<ViewId>,
        mark: u64,
        skip: bool,
        token: Token,
    ) -> Result<(), SaveFault>
        ensures waits { OnOk result (self.new ≡ waits view mark skip token self.old) }
        ensures full { (result ≡ Err TooMany) ↔ IsTrue (is_full view self.old.saves) }
        ensures unchanged { OnErr result (self.new ≡ self.old) }
    {
        if is_full(self.saves.as_slice(), view) {
            return Err(SaveFault::SavesFull);
        }
        // One place for this save and one for a final save.
        self.saves.reserve(2)?;
        self.saves.push(Save {
            view,
            mark,
            skip,
            token,
            bound: false,
        })?;
        Ok(())
    }

    /// Serves the ready saves where so many inputs are applied and the content holds them: those
    /// that need no put are answered, for the others one put of the content begins, with the token
    /// of the first of them.
    pub fn start(&mut self, applied: u64, file: &FileId, content: Bytes) -> Result<Started, Memory>
        requires { is_ready applied self.old ≡ true }
        ensures serves { OnOk result (self.new ≡ served applied file.now content self.old) }
        ensures errand { IfOk result (λ started. started.errand ≡ errand_for applied file.now content self.old) }
        ensures unmodified { IfOk result (λ started. started.unmodified.items ≡ unmodified applied self.old) }
        ensures unchanged { OnErr result (self.new ≡ self.old) }
    {
        let alloc = *self.saves.allocator();
        let last = self.last_stored();
        let unmodified = unmodified(alloc, self.saves.as_slice(), applied, last)?;
        let Some(token) = token_for(alloc, self.saves.as_slice(), applied, last)? else {
            serve(&mut self.saves, applied, last);
            return Ok(Started {
                errand: None,
                unmodified,
            });
        };
        let Some(next_ticket) = self.next_ticket.checked_add(1) else {
            return Err(Memory);
        };
        let errand = Errand {
            ticket: Ticket(self.next_ticket),
            file: file.copy(),
            token,
            content: content.clone()?,
            number: applied,
        };
        serve(&mut self.saves, applied, last);
        self.put = Some(Put {
            ticket: errand.ticket,
            file: file.copy(),
            number: applied,
            content,
        });
        self.next_ticket = next_ticket;
        Ok(Started {
            errand: Some(errand),
            unmodified,
        })
    }

    /// Takes the store's answer for the errand of this ticket: a receipt, or none where the store
    /// answered a fault. Where the ticket is the put's and the receipt is for its file and content,
    /// the put goes, and each bound save is answered; else nothing changes.
    pub fn answer(
        &mut self,
        ticket: Ticket,
        receipt: Option<&Receipt>,
    ) -> Result<Vec<SaveAnswer>, Memory>
        ensures answered { OnOk result (self.new ≡ answered ticket.0 (option_copied receipt.entry) self.old) }
        ensures answers { IfOk result (λ given. given.items ≡ answers ticket.0 (option_copied receipt.entry) self.old) }
        ensures unchanged { OnErr result (self.new ≡ self.old) }
    {
        let alloc = *self.saves.allocator();
        let Some(number) = answered_number(&self.put, ticket, receipt) else {
            return Ok(Vec::new(alloc));
        };
        let stored = receipt.is_some();
        let given = endings(alloc, self.saves.as_slice(), number, stored)?;
        let spare = copy_of(alloc, &self.kept)?;
        // The place for a final save.
        self.saves.reserve(1)?;
        store(&mut self.stored, number, stored)?;
        end(&mut self.saves);
        self.put = None;
        self.spare = spare;
        Ok(given)
    }

    /// Keeps the token for final saves, and the room for one.
    pub fn keep_final(&mut self, token: Token) -> Result<(), Memory>
        ensures kept { OnOk result (self.new ≡ token_kept token self.old) }
        ensures unchanged { OnErr result (self.new ≡ self.old) }
    {
        let spare = token.copy(*self.saves.allocator())?;
        self.saves.reserve(1)?;
        self.kept = Some(token);
        self.spare = Some(spare);
        Ok(())
    }

    /// A save without a view waits with this mark and the token kept. Its room was made by
    /// `keep_final`, and is made again when a put has ended, so it takes no memory.
    pub fn wait_final(&mut self, mark: u64)
        requires { self.old.has_room ≡ true }
        ensures { self.new ≡ final_waits mark self.old }
    {
        let Some(token) = self.spare.take() else {
            unreachable!()
        };
        let pushed = self.saves.push(Save {
            view: None,
            mark,
            skip: false,
            token,
            bound: false,
        });
        if pushed.is_err() {
            unreachable!()
        }
    }

    /// How many inputs the content holds that was stored last; 0 is the loaded file.
    pub fn last_stored(&self) -> u64
        ensures { result ≡ last_stored self.now }
    {
        self.stored.as_slice().last().copied().unwrap_or(0)
    }

    /// Whether a put is under way.
    pub fn has_put(&self) -> bool
        ensures { result ≡ is_some self.now.put }
    {
        self.put.is_some()
    }

    /// Whether no put is under way and some save waits that a content of so many inputs answers.
    pub fn is_ready(&self, applied: u64) -> bool
        ensures { result ≡ is_ready applied self.now }
    {
        self.put.is_none() && is_any_ready(self.saves.as_slice(), applied)
    }

    /// Whether a save that is not answered has this mark.
    pub fn has_mark(&self, mark: u64) -> bool
        ensures { result ≡ has_mark mark self.now }
    {
        has_mark(self.saves.as_slice(), mark)
    }

    /// Whether the view has `MOST_SAVES` saves that are not answered, so that no other waits.
    pub fn is_full(&self, view: Option<ViewId>) -> bool
        ensures { result ≡ is_full view self.now.saves }
    {
        is_full(self.saves.as_slice(), view)
    }

    /// The token kept for final saves, where one is.
    pub fn last_token(&self) -> Option<&Token>
        ensures { option_copied result ≡ self.now.last_token }
    {
        self.kept.as_ref()
    }

    /// The token with which the put under way went out, where the store's answer for the errand of this
    /// ticket is for it: a receipt, or none where the store answered a fault.
    pub fn answered_token(&self, ticket: Ticket, receipt: Option<&Receipt>) -> Option<&Token>
        ensures { option_copied result ≡ answered_token ticket.0 (option_copied receipt.entry) self.now }
    {
        if answered_number(&self.put, ticket, receipt).is_none() {
            return None;
        }
        put_token(self.saves.as_slice())
    }

    /// Whether every save is answered.
    pub fn is_empty(&self) -> bool
        ensures { result ≡ nat_eq (length self.now.saves) 0 }
    {
        self.saves.is_empty()
    }
}

// How many inputs the put holds that the answer is for; None where it is no answer for it.
fn answered_number(put: &Option<Put>, ticket: Ticket, receipt: Option<&Receipt>) -> Option<u64>
    ensures { result ≡ option_map (λ put. put.number) (answered_put ticket.0 (option_copied receipt.entry) put.now) }
{
    let Some(put) = put else {
        return None;
    };
    if put.ticket.0 == ticket.0 && is_for(put, receipt) {
        Some(put.number)
    } else {
        None
    }
}

// Whether the receipt, where there is one, is for the put's file and content.
fn is_for(put: &Put, receipt: Option<&Receipt>) -> bool
    ensures { result ≡ is_for put.now.file put.now.content (option_copied receipt.entry) }
{
    match receipt {
        Some(receipt) => {
            receipt.file.text() == put.file.text() && receipt.content == put.content
        }
        None => true,
    }
}

// An equal of the token, where there is one.
fn copy_of(alloc: Global, token: &Option<Token>) -> Result<Option<Token>, Memory>
    ensures { IfOk result (λ copy. copy ≡ token.now) }
{
    match token {
        Some(token) => Ok(Some(token.copy(alloc)?)),
        None => Ok(None),
    }
}
