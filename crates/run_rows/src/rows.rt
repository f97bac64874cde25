// Files of rows.
//
// A line says what the next run is given, or how it ends. Words and input stay for later runs, all else is for one.
//
//     words WORD WORD ..            the arguments, of which '' is an empty one
//     input PIECES                  the input
//     made WORD WORD ..             the input is what a run with these arguments writes
//     step N                        source and sink move so many bytes at a call
//     source N                      the source's call of this number fails
//     sink N                        the sink takes so many bytes
//     shelf N N ..                  the shelf's calls of these numbers fail
//     bent N flip                   the get of this number is bent, also by `cut` or `gone`
//     look ROUTER PAGE bits         a line on this record stands behind the output, also on `rows`
//     look FOLDER/FILE              a line on the length of this file stands behind the output
//     look routers                  a line on the routers in the yard stands behind the output
//     alone                         by the call that waits for nobody
//     folder NAME                   makes a folder
//     gives STATUS PIECES           the run ends with this status, and this is its output
//     sums STATUS PIECES            the same of the lines of its output that sum an answer up
//     digest STATUS HEX             the run ends with this status, and this is the SHA-256 of its output
//     refused LINE WORD PIECES      the run over this input is refused at this line by this word
//     ends STATUS                   the run ends with this status, whatever it writes
//     reads STATUS PIECES           each call of the source fails once: status 4, and nothing is written. Where none
//                                   fails, the run ends with this status, and this is its output
//     writes STATUS PIECES          each call of the sink fails once: status 5, and the output is written up to that call.
//                                   Where none fails, as above
//     without N STATUS PIECES       as `gives`, over the input without its line N, counted from 1; it has no empty line
//     doubled N STATUS PIECES       the same with line N twice
//     exchanged N STATUS PIECES     the same with line N behind the next
//     legal N                       so many runs, each with a report by the rule of receipts
//
// An empty line says nothing, and so does one that begins with `#`.
use crate::changes::{Change, change_of, changed};
use crate::pieces::{number_of, text_of};
use crate::receipts::{has_legal_receipts, sums_of};
use crate::runs::{Outcome, Row, outcome_of};
use page_shelf::Bend;
use sha2::{Digest, Sha256};
use std::alloc::{AllocError, Global};
use std::io::{Error, ErrorKind};
use std::rt::HostRuntime;
use std::sync::Wait;
use std::thread::Threads;
use std::{fs, io};

// What came of a line.
#[derive(Drop)]
enum Said {
    // It says more of the next run.
    More,
    // The run ended as the line says.
    Same,
    // It ended so.
    Differs(Outcome),
}

fn unknown<T>(_line: &str) -> io::Result<T> {
    Err(Error::from(ErrorKind::InvalidInput))
}

fn words_of(alloc: Global, value: Option<&str>) -> Result<Vec<String>, AllocError> {
    let mut words = Vec::new(alloc);
    if let Some(value) = value {
        for word in value.split(' ') {
            let word = if word == "''" { "" } else { word };
            words.push(String::from_str(alloc, word)?)?;
        }
    }
    Ok(words)
}

fn calls_of(alloc: Global, value: &str) -> Result<Vec<u64>, AllocError> {
    let mut calls = Vec::new(alloc);
    for call in value.split(' ') {
        calls.push(number_of(call, u64::MAX))?;
    }
    Ok(calls)
}

fn bent_of(value: &str) -> Option<(u64, Bend)> {
    let (get, bend) = value.split_once(' ')?;
    let bend = if bend == "flip" {
        Bend::Flip
    } else if bend == "cut" {
        Bend::Cut
    } else {
        Bend::Gone
    };
    Some((number_of(get, u64::MAX), bend))
}

// What a line says of the next run.
fn set(
    files: &HostRuntime,
    alloc: Global,
    row: &mut Row,
    key: &str,
    value: Option<&str>,
) -> io::Result<()> {
    let text = value.unwrap_or("");
    if key == "words" {
        row.words = words_of(alloc, value)?;
    } else if key == "input" {
        row.input = text_of(files, alloc, text)?;
    } else if key == "source" {
        row.source = number_of(text, u64::MAX);
    } else if key == "sink" {
        row.room = number_of(text, 100_000_000) as usize;
    } else if key == "step" {
        row.step = number_of(text, 1_000_000) as usize;
    } else if key == "shelf" {
        row.shelf = calls_of(alloc, text)?;
    } else if key == "bent" {
        row.bent = bent_of(text);
    } else if key == "look" {
        row.looks.push(String::from_str(alloc, text)?)?;
    } else if key == "alone" {
        row.alone = true;
    } else if key == "folder" {
        fs::create_dir(files, text)?;
    } else {
        return unknown(key);
    }
    Ok(())
}

// A status, and a text in pieces.
fn outcome_in(files: &HostRuntime, alloc: Global, value: &str) -> io::Result<Outcome> {
    let (status, pieces) = value.split_once(' ').unwrap_or((value, ""));
    Ok(Outcome {
        status: number_of(status, 255) as u8,
        text: text_of(files, alloc, pieces)?,
    })
}

fn compared(outcome: Outcome, wanted: &Outcome) -> Said {
    if outcome.status == wanted.status && outcome.text == wanted.text {
        Said::Same
    } else {
        Said::Differs(outcome)
    }
}

// The input is what a run with these arguments writes.
fn made<R: Threads + Wait + Sync>(
    rt: &R,
    files: &HostRuntime,
    alloc: Global,
    row: &mut Row,
    value: &str,
) -> io::Result<()> {
    let mut maker = Row::new(alloc);
    maker.words = words_of(alloc, Some(value))?;
    maker.room = 10_000_000;
    row.input = outcome_of(rt, files, alloc, &maker)?.text;
    Ok(())
}

// The same status, and the SHA-256 of the output in place of it.
fn digested(alloc: Global, outcome: Outcome) -> Result<Outcome, AllocError> {
    let digest = Sha256::digest(&outcome.text);
    Ok(Outcome {
        status: outcome.status,
        text: hex::encode(alloc, digest.as_slice())?.into_bytes(),
    })
}

// A run that is refused: the line and the word, and the input.
fn refused<R: Threads + Wait + Sync>(
    rt: &R,
    files: &HostRuntime,
    alloc: Global,
    row: &mut Row,
    value: &str,
) -> io::Result<Said> {
    let Some((line, rest)) = value.split_once(' ') else {
        return unknown(value);
    };
    let (word, pieces) = rest.split_once(' ').unwrap_or((rest, ""));
    row.input = text_of(files, alloc, pieces)?;
    let wanted = Outcome {
        status: 3,
        text: format!(in alloc; "refused {line} {word}\n")?.into_bytes(),
    };
    Ok(compared(outcome_of(rt, files, alloc, row)?, &wanted))
}

// Each call of the source fails once, also the one that finds the end.
fn each_read<R: Threads + Wait + Sync>(
    rt: &R,
    files: &HostRuntime,
    alloc: Global,
    row: &mut Row,
    wanted: &Outcome,
) -> io::Result<Said> {
    for call in 0..=row.input.len() as u64 {
        row.source = call;
        let outcome = outcome_of(rt, files, alloc, row)?;
        if outcome.status != 4 || !outcome.text.is_empty() {
            return Ok(Said::Differs(outcome));
        }
    }
    row.source = u64::MAX;
    Ok(compared(outcome_of(rt, files, alloc, row)?, wanted))
}

// Each call of the sink fails once.
fn each_write<R: Threads + Wait + Sync>(
    rt: &R,
    files: &HostRuntime,
    alloc: Global,
    row: &mut Row,
    wanted: &Outcome,
) -> io::Result<Said> {
    for call in 0..wanted.text.len() as u64 {
        row.write = call;
        let outcome = outcome_of(rt, files, alloc, row)?;
        let written = outcome.text.len() as u64;
        if outcome.status != 5 || written != call || !wanted.text.starts_with(&outcome.text) {
            return Ok(Said::Differs(outcome));
        }
    }
    row.write = u64::MAX;
    Ok(compared(outcome_of(rt, files, alloc, row)?, wanted))
}

// The run over the input with a line changed. The row keeps its input.
fn with_change<R: Threads + Wait + Sync>(
    rt: &R,
    files: &HostRuntime,
    alloc: Global,
    row: &mut Row,
    change: Change,
    value: &str,
) -> io::Result<Said> {
    let Some((number, rest)) = value.split_once(' ') else {
        return unknown(value);
    };
    let wanted = outcome_in(files, alloc, rest)?;
    let text = changed(alloc, &row.input, change, number_of(number, 1_000_000))?;
    let whole = std::mem::replace(&mut row.input, text);
    let outcome = outcome_of(rt, files, alloc, row)?;
    row.input = whole;
    Ok(compared(outcome, &wanted))
}

fn legal<R: Threads + Wait + Sync>(
    rt: &R,
    files: &HostRuntime,
    alloc: Global,
    row: &Row,
    count: u64,
) -> io::Result<Said> {
    for _ in 0..count {
        let outcome = outcome_of(rt, files, alloc, row)?;
        if outcome.status != 0 || !has_legal_receipts(alloc, &outcome.text)? {
            return Ok(Said::Differs(outcome));
        }
    }
    Ok(Said::Same)
}

// Does what a line says.
fn done<R: Threads + Wait + Sync>(
    rt: &R,
    files: &HostRuntime,
    alloc: Global,
    row: &mut Row,
    line: &str,
) -> io::Result<Said> {
    let Some((key, value)) = line.split_once(' ') else {
        set(files, alloc, row, line, None)?;
        return Ok(Said::More);
    };
    if key == "gives" {
        let outcome = outcome_of(rt, files, alloc, row)?;
        Ok(compared(outcome, &outcome_in(files, alloc, value)?))
    } else if key == "sums" {
        let Outcome { status, text } = outcome_of(rt, files, alloc, row)?;
        let text = sums_of(alloc, &text)?;
        Ok(compared(Outcome { status, text }, &outcome_in(files, alloc, value)?))
    } else if key == "digest" {
        let outcome = digested(alloc, outcome_of(rt, files, alloc, row)?)?;
        Ok(compared(outcome, &outcome_in(files, alloc, value)?))
    } else if key == "made" {
        made(rt, files, alloc, row, value)?;
        Ok(Said::More)
    } else if key == "refused" {
        refused(rt, files, alloc, row, value)
    } else if key == "reads" {
        each_read(rt, files, alloc, row, &outcome_in(files, alloc, value)?)
    } else if key == "writes" {
        each_write(rt, files, alloc, row, &outcome_in(files, alloc, value)?)
    } else if key == "ends" {
        let outcome = outcome_of(rt, files, alloc, row)?;
        if u64::from(outcome.status) == number_of(value, 255) {
            Ok(Said::Same)
        } else {
            Ok(Said::Differs(outcome))
        }
    } else if key == "legal" {
        legal(rt, files, alloc, row, number_of(value, 1000))
    } else if let Some(change) = change_of(key) {
        with_change(rt, files, alloc, row, change, value)
    } else {
        set(files, alloc, row, key, Some(value))?;
        Ok(Said::More)
    }
}

/// Runs the rows of a file, and prints those that ended otherwise, or how many there are.
pub fn run_file<R: Threads + Wait + Sync>(
    rt: &R,
    files: &HostRuntime,
    alloc: Global,
    name: &str,
) -> io::Result<()> {
    let text = fs::read_to_string(files, name)?;
    let mut row = Row::new(alloc);
    let mut same = 0u64;
    let mut others = 0u64;
    for (at, line) in text.lines().enumerate() {
        if line.is_empty() || line.starts_with('#') {
            continue;
        }
        match done(rt, files, alloc, &mut row, line)? {
            Said::More => {}
            Said::Same => {
                same = same.saturating_add(1);
                row.forget(alloc);
            }
            Said::Differs(outcome) => {
                others = others.saturating_add(1);
                let shown = std::str::from_utf8(&outcome.text).unwrap_or("no text");
                println!(files;
                    "{name}, line {}: status {}, and {shown}",
                    at.saturating_add(1),
                    outcome.status
                )?;
                row.forget(alloc);
            }
        }
    }
    if others == 0 {
        println!(files; "ok {name} {same}")
    } else {
        println!(files; "not ok {name}: {others} rows ended otherwise")
    }
}
