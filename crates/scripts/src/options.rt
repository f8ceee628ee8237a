// What the arguments so far ask for.
use text_words::names::named;

// The rows alone, an answer for each call too, or a dump behind each answer as well.
#[derive(Clone, Copy, PartialEq, Eq, PartialOrd, Ord, Debug)]
pub enum Printed {
    Rows,
    Answers,
    Dumps,
}

const OPTIONS: [(&[u8], Printed); 2] = [
    (b"--answers", Printed::Answers),
    (b"--full", Printed::Dumps),
];

// What an argument asks for, if it is an option and no script.
pub fn option_of(argument: &[u8]) -> Option<Printed> {
    named(&OPTIONS, argument)
}
