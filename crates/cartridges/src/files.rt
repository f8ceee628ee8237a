// What a cartridge file says, under its name.
use cartridge_files::{LONGEST, read_file};
use cartridge_header::read_header;
use cartridge_report::{Refused, Report};
use text_output::{Output, put};

fn put_answer(out: &mut Output, file: &[u8]) {
    match read_header(file) {
        Ok(cartridge) => put!(out; "{}", Report(cartridge)),
        Err(refusal) => put!(out; "  {}\n", Refused(refusal)),
    }
}

// A file that can't be read is told in its place among the others. It stays a function of its own, so that its array and that of rows never
// lie on the stack together.
#[inline(never)]
pub(crate) fn print_file(rt: &HostRuntime, name: &[u8]) {
    let mut bytes = [0u8; LONGEST];
    let mut out = Output::new(rt.stdout());
    out.put_all(name);
    out.put(b'\n');
    match read_file(rt, name, &mut bytes) {
        Ok(file) => put_answer(&mut out, file),
        Err(_) => out.put_all(b"  can't be read\n"),
    }
    out.flush();
}
