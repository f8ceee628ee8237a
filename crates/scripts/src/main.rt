// Plays the scripts that its arguments name on the board (oracle/FORMAT.md), and prints a row for each expectation. Behind the argument
// --answers an answer is printed for each call, as the Rust's driver does, and behind --full a dump after it.
#![tactic(auto)]

mod buffers;
mod clocks;
mod error;
mod options;
mod reader;
mod rows;
mod run;
mod session;

use crate::options::{Printed, option_of};
use crate::run::run;
use cartridge_files::open_read;
use program_arguments::Arguments;
use std::io::Print;
use text_output::{Output, put};

fn play_file(rt: &HostRuntime, name: &[u8], printed: Printed) {
    let mut out = Output::new(rt.stdout());
    match open_read(rt, name) {
        Ok(mut file) => run(&mut file, name, &mut out, printed),
        Err(_) => {
            put!(out; "no such file: ");
            out.put_all(name);
            out.put(b'\n');
            out.flush();
        }
    }
}

fn main(rt: HostRuntime) {
    let mut printed = Printed::Rows;
    for argument in Arguments::new(&rt) {
        match option_of(argument.bytes()) {
            Some(more) => printed = more,
            None => play_file(&rt, argument.bytes(), printed),
        }
    }
}
