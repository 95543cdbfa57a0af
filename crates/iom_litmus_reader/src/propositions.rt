//! Propositions: `~` binds most, then `/\`.
use crate::fault::{Fault, Why};
use crate::names::{glob_of, observable_of};
use iom_base::Sequence;
use iom_litmus_test::{Atom, Column, Glob, Observable, Proposition};
use std::alloc::{AllocError, Global};

/// How deep a proposition goes at most.
const DEEPEST: u32 = 64;

/// What stands between propositions. `/\` binds more.
#[derive(Clone, Copy)]
enum Connective {
    And,
    Or,
}

impl Connective {
    fn sign(self) -> &'static str {
        match self {
            Connective::And => "/\\",
            Connective::Or => "\\/",
        }
    }

    fn join(
        self,
        alloc: Global,
        left: Proposition,
        right: Proposition,
    ) -> Result<Proposition, AllocError> {
        let left = Box::new(alloc, left)?;
        let right = Box::new(alloc, right)?;
        Ok(match self {
            Connective::And => Proposition::And(left, right),
            Connective::Or => Proposition::Or(left, right),
        })
    }
}

/// The place of what is looked at, which is added where it isn't there.
fn place_of(seen: &mut Sequence<Observable>, observable: Observable) -> Result<usize, AllocError> {
    let count = seen.as_slice().len();
    for (place, other) in seen.as_slice().iter().enumerate() {
        if *other == observable {
            return Ok(place);
        }
    }
    seen.push(observable)?;
    Ok(count)
}

/// What is looked at, the text that it is to be, and what stands behind both.
fn atom_text(text: &str) -> Option<(&str, Option<&str>, &str)> {
    let plain = text.split([')', '/', '\\', ';']).next().unwrap_or(text);
    if let Some((looked_at, _)) = plain.split_once(" = \"") {
        let (_, quoted) = text.split_once(" = \"")?;
        let (answer, rest) = quoted.split_once('"')?;
        return Some((looked_at, Some(answer), rest));
    }
    let rest = text.strip_prefix(plain).unwrap_or("");
    match plain.split_once("]=") {
        Some((_, digits)) => Some((plain, Some(digits.trim()), rest)),
        None => Some((plain, None, rest)),
    }
}

fn wanted_of(alloc: Global, wanted: Option<&str>) -> Result<Option<Glob>, AllocError> {
    match wanted {
        Some(answer) => Ok(Some(glob_of(alloc, answer)?)),
        None => Ok(None),
    }
}

/// What is looked at, and what stands behind it.
pub(crate) fn atom_and<'a>(
    alloc: Global,
    columns: &[Column],
    seen: &mut Sequence<Observable>,
    text: &'a str,
) -> Result<(Atom, &'a str), Fault> {
    let Some((looked_at, wanted, rest)) = atom_text(text) else {
        return Err(Fault::Because(Why::BadProposition));
    };
    let digits = wanted.unwrap_or("").len();
    let Some(observable) = observable_of(columns, looked_at.trim(), digits) else {
        return Err(Fault::Because(Why::NoSuchCell));
    };
    let place = place_of(seen, observable)?;
    let wanted = wanted_of(alloc, wanted)?;
    Ok((Atom { place, wanted }, rest))
}

fn negated(alloc: Global, inner: Proposition) -> Result<Proposition, AllocError> {
    Ok(Proposition::Not(Box::new(alloc, inner)?))
}

/// A proposition without connectives between its parts, and what stands behind it.
#[cycle(proposition)]
fn single_and<'a>(
    alloc: Global,
    columns: &[Column],
    seen: &mut Sequence<Observable>,
    text: &'a str,
    depth: u32,
) -> Result<(Proposition, &'a str), Fault> {
    if depth == 0 {
        return Err(Fault::Because(Why::BadProposition));
    }
    let text = text.trim_start();
    if let Some(behind) = text.strip_prefix('~') {
        let (inner, rest) = single_and(alloc, columns, seen, behind, depth - 1)?;
        return Ok((negated(alloc, inner)?, rest));
    }
    if let Some(inside) = text.strip_prefix('(') {
        let (inner, rest) = joined_and(alloc, columns, seen, inside, Connective::Or, depth - 1)?;
        let Some(rest) = rest.trim_start().strip_prefix(')') else {
            return Err(Fault::Because(Why::BadProposition));
        };
        return Ok((inner, rest));
    }
    let (atom, rest) = atom_and(alloc, columns, seen, text)?;
    Ok((Proposition::Seen(atom), rest))
}

/// Propositions with the connective between them, and what stands behind them.
#[cycle(proposition)]
fn joined_and<'a>(
    alloc: Global,
    columns: &[Column],
    seen: &mut Sequence<Observable>,
    text: &'a str,
    connective: Connective,
    depth: u32,
) -> Result<(Proposition, &'a str), Fault> {
    if depth == 0 {
        return Err(Fault::Because(Why::BadProposition));
    }
    let first = match connective {
        Connective::And => single_and(alloc, columns, seen, text, depth - 1),
        Connective::Or => joined_and(alloc, columns, seen, text, Connective::And, depth - 1),
    };
    let (left, rest) = first?;
    let Some(more) = rest.trim_start().strip_prefix(connective.sign()) else {
        return Ok((left, rest));
    };
    let (right, rest) = joined_and(alloc, columns, seen, more, connective, depth - 1)?;
    Ok((connective.join(alloc, left, right)?, rest))
}

/// A proposition, and what stands behind it.
pub(crate) fn proposition_and<'a>(
    alloc: Global,
    columns: &[Column],
    seen: &mut Sequence<Observable>,
    text: &'a str,
) -> Result<(Proposition, &'a str), Fault> {
    joined_and(alloc, columns, seen, text, Connective::Or, DEEPEST)
}
