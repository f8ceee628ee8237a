// The names of lines: each call by its letter and its word, then what sets up, shows and expects.
#[derive(Clone, Copy, PartialEq, Eq, Debug)]
pub enum CallName {
    Read,
    Write,
    PictureRead,
    PictureWrite,
    View,
    Reset,
    Level,
    Forecast,
    ReadBus,
}

// The sixteen values of `registers`, the hashes of both buffers, the dump.
#[derive(Clone, Copy, PartialEq, Eq, Debug)]
pub enum Shown {
    Registers,
    Buffers,
    Dump,
}

#[derive(Clone, Copy, PartialEq, Eq, Debug)]
pub enum Name {
    Call(CallName),
    Clock,
    Filled,
    LayoutS,
    Create,
    Show(Shown),
    Lend,
    Poke,
    Expect,
    OpenBus,
    Heading,
}

pub const NAMES: [(&[u8], Name); 32] = [
    (b"R", Name::Call(CallName::Read)),
    (b"read", Name::Call(CallName::Read)),
    (b"W", Name::Call(CallName::Write)),
    (b"write", Name::Call(CallName::Write)),
    (b"P", Name::Call(CallName::PictureRead)),
    (b"picture-read", Name::Call(CallName::PictureRead)),
    (b"Q", Name::Call(CallName::PictureWrite)),
    (b"picture-write", Name::Call(CallName::PictureWrite)),
    (b"V", Name::Call(CallName::View)),
    (b"view", Name::Call(CallName::View)),
    (b"Z", Name::Call(CallName::Reset)),
    (b"reset", Name::Call(CallName::Reset)),
    (b"L", Name::Call(CallName::Level)),
    (b"level", Name::Call(CallName::Level)),
    (b"F", Name::Call(CallName::Forecast)),
    (b"forecast", Name::Call(CallName::Forecast)),
    (b"B", Name::Call(CallName::ReadBus)),
    (b"read-bus", Name::Call(CallName::ReadBus)),
    (b"C", Name::Clock),
    (b"clock", Name::Clock),
    (b"N", Name::Filled),
    (b"S", Name::LayoutS),
    (b"create", Name::Create),
    (b"G", Name::Show(Shown::Registers)),
    (b"H", Name::Show(Shown::Buffers)),
    (b"D", Name::Show(Shown::Dump)),
    (b"lend", Name::Lend),
    (b"poke", Name::Poke),
    (b"expect", Name::Expect),
    (b"O", Name::OpenBus),
    (b"open-bus", Name::OpenBus),
    (b"=", Name::Heading),
];
