//! The names that standard input holds.
ghost use Rattle.std.specs.Prelude.{◌≡◌, ◌≤◌, ◌<◌, ◌+◌, ◌++◌, [], IfOk, IfErr, drop, length, map, take};
ghost use Rattle.program.specs.NameLists.{IsNameFault, last_name, listed_names, name_end as end_meant};

use crate::fault::ProgramFault;
use std::alloc::Global;

/// The byte that ends a name.
pub fn name_end(is_null: bool) -> u8
    ensures { result ≡ end_meant is_null }
{
    if is_null { 0 } else { b'\n' }
}

/// A name as text.
fn name_of<'a, 'f>(bytes: &'a [u8]) -> Result<&'a str, ProgramFault<'f>>
    ensures name { IfOk result (λ name. name.now ≡ bytes.now) }
    ensures fault { IfErr result IsNameFault }
{
    match str::from_utf8(bytes) {
        Ok(name) => Ok(name),
        Err(_) => Err(ProgramFault::Names),
    }
}

/// Takes a name that is ended by the byte at `i`, where it is an end, and answers where the next name begins.
fn take_name<'a, 'f>(
    names: &mut Vec<&'a str>,
    bytes: &'a [u8],
    start: usize,
    i: usize,
    end: u8,
) -> Result<usize, ProgramFault<'f>>
    requires within { start ≤ i }
    requires below { i < length bytes.now }
    ensures next { IfOk result (λ next. next ≤ i + 1) }
    ensures names { IfOk result (λ next. map (λ n. n.now) names.new.items
        ++ listed_names end (drop next (take (i + 1) bytes.now)) (drop (i + 1) bytes.now)
        ≡ map (λ n. n.now) names.old.items ++ listed_names end (drop start (take i bytes.now)) (drop i bytes.now)) }
    ensures fault { IfErr result IsNameFault }
{
    if bytes[i] != end {
        return Ok(start);
    }
    let name = match name_of(&bytes[start..i]) {
        Ok(name) => name,
        Err(fault) => return Err(fault),
    };
    match names.push(name) {
        Ok(()) => Ok(i + 1),
        Err(_) => Err(ProgramFault::Memory),
    }
}

/// Takes the name that no byte ends, where there is one.
fn take_last<'a, 'f>(names: &mut Vec<&'a str>, part: &'a [u8]) -> Result<(), ProgramFault<'f>>
    ensures names { IfOk result (λ _. map (λ n. n.now) names.new.items ≡ map (λ n. n.now) names.old.items ++ last_name part.now) }
    ensures fault { IfErr result IsNameFault }
{
    if part.is_empty() {
        return Ok(());
    }
    let name = match name_of(part) {
        Ok(name) => name,
        Err(fault) => return Err(fault),
    };
    match names.push(name) {
        Ok(()) => Ok(()),
        Err(_) => Err(ProgramFault::Memory),
    }
}

/// The names in these bytes, each ended by that byte; the last one may be ended by the end.
pub fn listed_names<'a, 'f>(
    alloc: Global,
    bytes: &'a [u8],
    end: u8,
) -> Result<Vec<&'a str>, ProgramFault<'f>>
    ensures names { IfOk result (λ names. map (λ n. n.now) names.items ≡ listed_names end [] bytes.now) }
    ensures fault { IfErr result IsNameFault }
{
    let mut names = Vec::new(alloc);
    let mut start = 0;
    for i in 0..bytes.len() {
        start = match take_name(&mut names, bytes, start, i, end) {
            Ok(next) => next,
            Err(fault) => return Err(fault),
        };
    }
    match take_last(&mut names, &bytes[start..]) {
        Ok(()) => Ok(names),
        Err(fault) => Err(fault),
    }
}
