// Expressions that tests write as texts: terms between `;`, of words between spaces, in any order.
//
// `o3` and `n3` are variables of table 3 of the old and of the new side, `o3@1` one after the side's first statement.
// `0.1` is column 1 of variable 0, `p0` an argument, `k0` a key, `5` a number and `'a` a text. Between two of these a
// sign makes a comparison, as `0.1<=5`; without one they are the head, behind `->`. `0~1` says that two variables have
// different rows. `any(` and `none(` begin a body that is held or not, and `)` ends it.
use mig_algebra::{Atom, Expr, Inner, Lit, Term, Var};
use mig_base::Seq;
use mig_schema::{Op, Side};
use std::alloc::{AllocError, Global};
use std::mem;

/// The signs of comparisons, those of two bytes first.
const SIGNS: [(&str, Op); 6] = [
    ("<=", Op::Le),
    (">=", Op::Ge),
    ("<>", Op::Ne),
    ("=", Op::Eq),
    ("<", Op::Lt),
    (">", Op::Gt),
];

/// What is read of a body, or of a term, which is no body but is read as one.
#[derive(Drop)]
struct Open {
    held: bool,
    inner: Inner,
}

fn opened(alloc: Global, held: bool) -> Open {
    let vars = Seq::new(alloc);
    let lits = Seq::new(alloc);
    Open {
        held,
        inner: Inner { vars, lits },
    }
}

/// A term that is read: the inmost open body, those around it, and the head.
#[derive(Drop)]
struct Reading {
    open: Open,
    around: Vec<Open>,
    head: Seq<Atom>,
}

fn var(word: &str) -> Option<Var> {
    let (side, rest) = match word.strip_prefix('o') {
        Some(rest) => (Side::Old, rest),
        None => (Side::New, word.strip_prefix('n')?),
    };
    let (table, stage) = rest.split_once('@').unwrap_or((rest, "0"));
    Some(Var {
        side,
        table: table.parse().ok()?,
        stage: stage.parse().ok()?,
    })
}

/// An atom that is no text.
fn plain_atom(word: &str) -> Option<Atom> {
    if let Some(number) = word.strip_prefix('p') {
        return Some(Atom::Param(number.parse().ok()?));
    }
    if let Some(label) = word.strip_prefix('k') {
        return Some(Atom::Fresh(label.parse().ok()?));
    }
    match word.split_once('.') {
        Some((var, column)) => Some(Atom::Col {
            var: var.parse().ok()?,
            column: column.parse().ok()?,
        }),
        None => Some(Atom::Int(word.parse().ok()?)),
    }
}

fn atom(alloc: Global, word: &str) -> Result<Atom, AllocError> {
    match word.strip_prefix('\'') {
        Some(text) => Ok(Atom::Text(Seq::from_slice(alloc, text.as_bytes())?)),
        None => plain_atom(word).ok_or(AllocError),
    }
}

fn other(left: &str, right: &str) -> Option<Lit> {
    let left = left.parse().ok()?;
    let right = right.parse().ok()?;
    Some(Lit::Other { left, right })
}

fn comparison(alloc: Global, op: Op, left: &str, right: &str) -> Result<Lit, AllocError> {
    let left = atom(alloc, left)?;
    let right = atom(alloc, right)?;
    Ok(Lit::Cmp { op, left, right })
}

/// The literal that a word spells, if it has a literal's sign.
fn lit(alloc: Global, word: &str) -> Result<Option<Lit>, AllocError> {
    if let Some((left, right)) = word.split_once('~') {
        return Ok(other(left, right));
    }
    for (sign, op) in SIGNS {
        if let Some((left, right)) = word.split_once(sign) {
            return Ok(Some(comparison(alloc, op, left, right)?));
        }
    }
    Ok(None)
}

impl Reading {
    fn begin(&mut self, alloc: Global, held: bool) -> Result<(), AllocError> {
        let outer = mem::replace(&mut self.open, opened(alloc, held));
        self.around.push(outer)?;
        Ok(())
    }

    fn end(&mut self) -> Result<(), AllocError> {
        let Some(outer) = self.around.pop() else {
            return Err(AllocError);
        };
        let Open { held, inner } = mem::replace(&mut self.open, outer);
        self.open.inner.lits.push(Lit::Any { held, inner })
    }

    /// A variable, a literal or an atom of the head.
    fn item(&mut self, alloc: Global, word: &str) -> Result<(), AllocError> {
        if let Some(var) = var(word) {
            return self.open.inner.vars.push(var);
        }
        match lit(alloc, word)? {
            Some(lit) => self.open.inner.lits.push(lit),
            None => self.head.push(atom(alloc, word)?),
        }
    }

    fn word(&mut self, alloc: Global, word: &str) -> Result<(), AllocError> {
        match word {
            "any(" => self.begin(alloc, true),
            "none(" => self.begin(alloc, false),
            ")" => self.end(),
            "->" => Ok(()),
            _ => self.item(alloc, word),
        }
    }
}

/// The term that a text spells; want of memory where it spells none.
pub(crate) fn term(alloc: Global, text: &str) -> Result<Term, AllocError> {
    let mut reading = Reading {
        open: opened(alloc, true),
        around: Vec::new(alloc),
        head: Seq::new(alloc),
    };
    for word in text.split_whitespace() {
        reading.word(alloc, word)?;
    }
    let Reading { open, around, head } = reading;
    if !around.is_empty() {
        return Err(AllocError);
    }
    let Inner { vars, lits } = open.inner;
    Ok(Term { vars, lits, head })
}

/// The expression that a text spells, of no terms where it is empty; want of memory where it spells none.
pub(crate) fn sum(alloc: Global, text: &str) -> Result<Expr, AllocError> {
    let mut terms = Seq::new(alloc);
    for part in text.split(';') {
        if !part.is_empty() {
            terms.push(term(alloc, part)?)?;
        }
    }
    Ok(Expr { terms })
}
