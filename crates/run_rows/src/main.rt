//! Runs the rows of the files of its folder by the top call of spie, and prints which rows ended as they say.
//!
//! A file `NAME.rows` has rows: arguments, an input and what fails, and then the status and the output that follow from
//! the definitions by hand. `rows` has the form of such a file. Each other file is a part of inputs and outputs. A line is
//! printed for each file, also for one of parts, and for each row that ended otherwise: so a row that fails, and a file
//! that comes or goes, changes what is printed. Read `rows` first, then `runs` and `pieces`.
#![tactic(auto)]

mod changes;
mod pieces;
mod receipts;
mod rows;
mod runs;

use crate::rows::run_file;
use std::alloc::Global;
use std::rt::HostRuntime;
use std::{fs, io};

// The names of the files of the folder that the program runs in, in their order.
fn names(rt: &HostRuntime, alloc: Global) -> io::Result<Vec<String>> {
    let mut names = Vec::new(alloc);
    for entry in fs::read_dir(rt, ".")? {
        let entry = entry?;
        names.push(String::from_str(alloc, entry.file_name())?)?;
    }
    names.sort()?;
    Ok(names)
}

fn main(rt: HostRuntime) -> io::Result<()> {
    for name in &names(&rt, rt.alloc())? {
        if name.ends_with(".rows") {
            run_file(&rt, &rt, rt.alloc(), name)?;
        } else {
            println!(rt; "part {name}")?;
        }
    }
    Ok(())
}
