// A reader takes the tokens of a text one by one.
ghost use Rattle.std.specs.Prelude.{◌≡◌, ◌↔◌, ◌++◌, ◌∷◌, true, [], cond, IfOk, IfSome, IfNone, OnOk, Some, None, IsTrue, nat_lt, length};
ghost use Rattle.mig_dimacs.specs.Texts as spec;
ghost use Rattle.mig_dimacs.specs.Reading as read;
ghost use Rattle.mig_dimacs.specs.declared.place.Place.TheVariants as at;

use crate::place::{Place, is_clause, may_come, next_place, next_soft};
use crate::text::{Head, Text};
use crate::token::{Number, Token};
use mig_base::Seq;
use std::alloc::{AllocError, Global};
use std::mem;

/// What was read: the whole clauses, the beginning of one, and what the soft ones cost together.
#[derive(Drop)]
pub struct Reader {
    pub place: Place,
    pub clauses: Seq<Seq<Number>>,
    pub current: Seq<Number>,
    pub soft: u64,
}

impl Reader {
    /// Before all.
    pub fn new(alloc: Global, weighted: bool) -> Reader
        ensures { result ≡ read.fresh weighted }
    {
        Reader {
            place: Place::Start(weighted),
            clauses: Seq::new(alloc),
            current: Seq::new(alloc),
            soft: 0,
        }
    }

    /// Ends the clause, if it is one.
    fn end_clause(&mut self, alloc: Global, head: Head) -> Result<bool, AllocError>
        requires { self.old.place ≡ at.Clauses head }
        ensures is { IfOk result (λ took. took ≡ spec.is_clause head self.old.current) }
        ensures place { self.new.place ≡ self.old.place }
        ensures soft { self.new.soft ≡ self.old.soft }
        ensures took { IfOk result (λ took. took ≡ true → (self.new.clauses ≡ self.old.clauses ++ self.old.current ∷ []) × (self.new.current ≡ [])) }
    {
        if !is_clause(head, self.current.as_slice()) {
            return Ok(false);
        }
        let clause = mem::replace(&mut self.current, Seq::new(alloc));
        self.clauses.push(clause)?;
        Ok(true)
    }

    /// Puts one more number into the clause that has begun, unless soft clauses then cost too much.
    fn put_number(&mut self, head: Head, number: Number) -> Result<bool, AllocError>
        requires { self.old.place ≡ at.Clauses head }
        ensures { IfOk result (λ took. cond took (Some self.new) None ≡ read.with_number head self.old.clauses self.old.current number (read.next_soft head.top self.old.soft self.old.current number)) }
    {
        match next_soft(head.top, self.soft, self.current.as_slice(), number) {
            None => Ok(false),
            Some(soft) => {
                self.current.push(number)?;
                self.soft = soft;
                Ok(true)
            }
        }
    }

    /// Takes a number of a clause, or the 0 at its end.
    fn take_number(&mut self, alloc: Global, head: Head, number: Number) -> Result<bool, AllocError>
        requires { self.old.place ≡ at.Clauses head }
        ensures { IfOk result (λ took. cond took (Some self.new) None ≡ read.next_in_clause head self.old.clauses self.old.current self.old.soft number) }
    {
        if self.clauses.len() as u64 >= head.count {
            return Ok(false);
        }
        if !number.negative && number.size == 0 {
            return self.end_clause(alloc, head);
        }
        if !may_come(head, self.current.as_slice(), number) {
            return Ok(false);
        }
        self.put_number(head, number)
    }

    /// Takes the end of the text.
    fn take_end(&mut self, head: Head) -> bool
        ensures { cond result (Some self.new) None ≡ read.next_at_end head self.old.clauses self.old.current self.old.soft }
    {
        if !self.current.is_empty() || self.clauses.len() as u64 != head.count {
            return false;
        }
        self.place = Place::Ended(head);
        true
    }

    /// Takes a token behind the header.
    fn take_in_clauses(
        &mut self,
        alloc: Global,
        head: Head,
        token: Token,
    ) -> Result<bool, AllocError>
        requires { self.old.place ≡ at.Clauses head }
        ensures { IfOk result (λ took. cond took (Some self.new) None ≡ read.next_in_clauses head self.old.clauses self.old.current self.old.soft token) }
    {
        match token {
            Token::Number(number) => self.take_number(alloc, head, number),
            Token::End => Ok(self.take_end(head)),
            _ => Ok(false),
        }
    }

    /// Takes the next token; false where no text goes on so.
    pub fn take(&mut self, alloc: Global, token: Token) -> Result<bool, AllocError>
        ensures { IfOk result (λ took. cond took (Some self.new) None ≡ read.next self.old token) }
    {
        if let Place::Clauses(head) = self.place {
            return self.take_in_clauses(alloc, head, token);
        }
        match next_place(self.place, token) {
            Some(place) => {
                self.place = place;
                Ok(true)
            }
            None => Ok(false),
        }
    }

    /// What was read, if its end was.
    pub fn into_text(self) -> Option<Text>
        ensures some { IfSome result (λ t. (self.place ≡ at.Ended t.head) × (t.clauses ≡ self.clauses)) }
        ensures none { IfNone result ((h : Head) → self.place ≡ at.Ended h → ⊥) }
    {
        let Reader { place, clauses, .. } = self;
        match place {
            Place::Ended(head) => Some(Text { head, clauses }),
            _ => None,
        }
    }
}
