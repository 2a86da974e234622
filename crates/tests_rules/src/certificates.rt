// Certificates that tests write as texts. A text that spells none is answered as want of memory.
use mig_algebra::{Invariant, Invariants, View};
use mig_base::Seq;
use mig_certificate::{Certificate, Claim, Entry, PairProof};
use mig_rules::{Rule, Step};
use mig_schema::{ColId, Join, Joined, Side};
use std::alloc::{AllocError, Global};

const RULES: [(&str, Rule); 17] = [
    ("stage", Rule::Stage),
    ("stagein", Rule::StageIn),
    ("dead", Rule::Dead),
    ("same", Rule::Same),
    ("implied", Rule::Implied),
    ("lift", Rule::Lift),
    ("split", Rule::Split),
    ("found", Rule::Found),
    ("alone", Rule::Alone),
    ("inside", Rule::Inside),
    ("never", Rule::Never),
    ("merge", Rule::Merge),
    ("apart", Rule::Apart),
    ("lossless", Rule::Lossless),
    ("fold", Rule::Fold),
    ("foldin", Rule::FoldIn),
    ("rejoin", Rule::Rejoin),
];

fn rule(word: &str) -> Result<Rule, AllocError> {
    for (name, rule) in RULES {
        if name == word {
            return Ok(rule);
        }
    }
    Err(AllocError)
}

fn number(word: &str) -> Result<u32, AllocError> {
    word.parse().map_err(|_| AllocError)
}

/// The numbers between dots, or none for `-`.
fn path(alloc: Global, word: &str) -> Result<Seq<u32>, AllocError> {
    let mut path = Seq::new(alloc);
    if word != "-" {
        for part in word.split('.') {
            path.push(number(part)?)?;
        }
    }
    Ok(path)
}

/// The use of a rule: its name, the number of a term, a path, and arguments, as `fold 0 1.2 3 4`.
pub(crate) fn step(alloc: Global, text: &str) -> Result<Step, AllocError> {
    let mut words = text.split_whitespace();
    let rule = rule(words.next().unwrap_or(""))?;
    let term = number(words.next().unwrap_or(""))?;
    let path = path(alloc, words.next().unwrap_or(""))?;
    let mut args = Seq::new(alloc);
    for word in words {
        args.push(number(word)?)?;
    }
    Ok(Step {
        rule,
        term,
        path,
        args,
    })
}

/// The steps between commas.
pub(crate) fn steps(alloc: Global, text: &str) -> Result<Seq<Step>, AllocError> {
    let mut steps = Seq::new(alloc);
    for part in text.split(',') {
        if !part.trim().is_empty() {
            steps.push(step(alloc, part)?)?;
        }
    }
    Ok(steps)
}

fn claim(text: &str) -> Result<Claim, AllocError> {
    match text.split_once(' ') {
        Some(("holds", invariant)) => Ok(Claim::Holds(number(invariant)?)),
        _ => Ok(Claim::Answers),
    }
}

/// What is claimed, and the steps of both sides, as `holds 0: stage 0 - 0 | stage 0 - 0` or `answers: |`.
pub(crate) fn entry(alloc: Global, text: &str) -> Result<Entry, AllocError> {
    let (claimed, shown) = text.split_once(':').ok_or(AllocError)?;
    let (source, target) = shown.split_once('|').ok_or(AllocError)?;
    let claim = claim(claimed.trim())?;
    let source = steps(alloc, source)?;
    let target = steps(alloc, target)?;
    Ok(Entry {
        claim,
        source,
        target,
    })
}

/// The name of a pair of functions, and its entries, all between `;`.
fn pair(alloc: Global, text: &str) -> Result<PairProof, AllocError> {
    let mut parts = text.split(';');
    let name = Seq::from_slice(alloc, parts.next().unwrap_or("").as_bytes())?;
    let mut entries = Seq::new(alloc);
    for part in parts {
        entries.push(entry(alloc, part)?)?;
    }
    Ok(PairProof { name, entries })
}

/// The proofs of pairs, each in a line.
fn pairs(alloc: Global, text: &str) -> Result<Seq<PairProof>, AllocError> {
    let mut pairs = Seq::new(alloc);
    for line in text.split('\n') {
        if !line.is_empty() {
            pairs.push(pair(alloc, line)?)?;
        }
    }
    Ok(pairs)
}

fn side(word: &str) -> Side {
    if word == "old" { Side::Old } else { Side::New }
}

/// A column, by the numbers of its table and its own.
fn column(word: &str) -> Result<ColId, AllocError> {
    let (table, column) = word.split_once('.').ok_or(AllocError)?;
    Ok(ColId {
        table: number(table)?,
        column: number(column)?,
    })
}

/// The columns between spaces.
fn columns(alloc: Global, text: &str) -> Result<Seq<ColId>, AllocError> {
    let mut columns = Seq::new(alloc);
    for word in text.split_whitespace() {
        columns.push(column(word)?)?;
    }
    Ok(columns)
}

/// The join of a table with that of the right column, by an equality.
fn joined(word: &str) -> Result<Joined, AllocError> {
    let (left, right) = word.split_once('=').ok_or(AllocError)?;
    let left = column(left)?;
    let right = column(right)?;
    let table = right.table;
    Ok(Joined { table, left, right })
}

/// The join of a table with others, by equalities.
fn join(alloc: Global, first: u32, text: &str) -> Result<Join, AllocError> {
    let mut more = Seq::new(alloc);
    for word in text.split_whitespace() {
        more.push(joined(word)?)?;
    }
    Ok(Join { first, more })
}

/// Columns as outputs; of the first one's table, or of a join that begins with it, as in `0.1 1.0 on 0.0=1.1`.
fn view(alloc: Global, text: &str) -> Result<View, AllocError> {
    let (outs, tables) = text.split_once(" on ").unwrap_or((text, ""));
    let outs = columns(alloc, outs)?;
    let first = match outs.get(0) {
        Some(column) => column.table,
        None => 0,
    };
    let join = join(alloc, first, tables)?;
    Ok(View { join, outs })
}

fn views(alloc: Global, text: &str) -> Result<Invariant, AllocError> {
    let (source, target) = text.split_once(" is ").ok_or(AllocError)?;
    let source = view(alloc, source)?;
    let target = view(alloc, target)?;
    Ok(Invariant::Views { source, target })
}

/// `view 0.0 0.1 is 0.0 0.1`, whose sides may be joins, `unique new 0.0`, `apart old 0.0 0.1` or `within new 0.0 0.1`.
fn invariant(alloc: Global, text: &str) -> Result<Invariant, AllocError> {
    if let Some(rest) = text.strip_prefix("view ") {
        return views(alloc, rest);
    }
    let mut words = text.split_whitespace();
    let name = words.next().unwrap_or("");
    let side = side(words.next().unwrap_or(""));
    let left = column(words.next().unwrap_or(""))?;
    if name == "unique" {
        return Ok(Invariant::Unique { side, column: left });
    }
    let right = column(words.next().unwrap_or(""))?;
    Ok(if name == "apart" {
        Invariant::Apart { side, left, right }
    } else {
        Invariant::Within { side, left, right }
    })
}

/// The invariants, each in a line.
pub(crate) fn invariants(alloc: Global, text: &str) -> Result<Invariants, AllocError> {
    let mut list = Seq::new(alloc);
    for line in text.split('\n') {
        if !line.is_empty() {
            list.push(invariant(alloc, line)?)?;
        }
    }
    Ok(Invariants { list })
}

/// The certificate of these invariants and these pairs.
pub(crate) fn certificate(
    alloc: Global,
    facts: &str,
    shown: &str,
) -> Result<Certificate, AllocError> {
    let invariants = invariants(alloc, facts)?;
    let pairs = pairs(alloc, shown)?;
    Ok(Certificate { invariants, pairs })
}
