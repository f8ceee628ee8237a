// Prints what cartridge files say, each under its name. --rows FILE plays that file's rows of headers
// (oracle/FORMAT.md).
#![tactic(auto)]

mod files;
mod row;
mod rows;

use crate::files::print_file;
use crate::rows::play_file;
use program_arguments::Arguments;
use text_words::names::same_name;

fn main(rt: HostRuntime) {
    if Arguments::new(&rt).next().is_none() {
        let _ = eprintln!(rt; "usage: cartridges FILE.nes ...");
    }
    let mut arguments = Arguments::new(&rt);
    while let Some(argument) = arguments.next() {
        if same_name(b"--rows", argument.bytes()) {
            let Some(file) = arguments.next() else {
                return;
            };
            play_file(&rt, file.bytes());
        } else {
            print_file(&rt, argument.bytes());
        }
    }
}
