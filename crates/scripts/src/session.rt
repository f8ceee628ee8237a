// What is kept from line to line of a script, and what a line does to it.
use crate::buffers::Buffers;
use crate::clocks::clock_times;
use crate::error::ScriptError;
use crate::options::Printed;
use crate::rows::Rows;
use script_bytes::fnv::{FNV_START, fnv};
use script_calls::call_of;
use script_lines::line::{Bytes, Creation};
use script_lines::names::Shown;
use script_lines::values::{Buffer, Value};
use script_lines::{CallLine, Line, parse};
use script_state::dump::{Dump, Registers};
use script_state::told::{Said, Told, View, put_answer, put_refused};
use script_state::values::{same, set, value};
use text_output::{Output, put};
use text_words::{from_first, next_word};
use vrc6::Board;
use vrc6_banking::banking::Settings;
use vrc6_calls::Call;

// The board behind the last line that set something, and the hash of the changing buffer there.
#[derive(Clone, Copy)]
struct Mark {
    board: Board,
    changing: u32,
}

#[derive(Drop)]
pub struct Session {
    board: Option<Board>,
    mark: Option<Mark>,
    // What the last call answered.
    told: Told,
    // The setting of boards that are created.
    open_bus: bool,
    buffers: Buffers,
    printed: Printed,
    pub rows: Rows,
}

// An empty line, and the text behind the first word.
fn put_heading(out: &mut Output, line: &[u8]) {
    out.put(b'\n');
    if let Some(word) = next_word(line) {
        out.put_all(from_first(word.rest, false));
    }
    out.put(b'\n');
}

fn byte_at(bytes: &[u8], at: u32, behind: u32) -> u32 {
    bytes
        .get(at as usize)
        .map_or(behind, |byte| u32::from(*byte))
}

impl Session {
    // Before the first line.
    pub fn new(printed: Printed) -> Session {
        Session {
            board: None,
            mark: None,
            told: Told::number(0),
            open_bus: false,
            buffers: Buffers::new(),
            printed,
            rows: Rows::default(),
        }
    }

    // The board that a line needs.
    fn board(&self) -> Result<Board, ScriptError> {
        self.board.ok_or(ScriptError::NoBoard)
    }

    // From here on the board and the bytes of the changing buffer are compared with these.
    fn set_mark(&mut self, board: Board) {
        let changing = self.buffers.hash(Buffer::Changing);
        self.mark = Some(Mark { board, changing });
    }

    // The dump behind an answer, where it is asked for.
    fn put_dump(&self, out: &mut Output, board: &Board) {
        if self.printed >= Printed::Dumps {
            put!(out; "{}", Dump(board));
        }
    }

    fn create(&mut self, out: &mut Output, creation: Creation) {
        let layout = creation.layout;
        if creation.bytes != Bytes::Kept {
            self.buffers.lend_layout(layout);
            self.buffers.set(creation.bytes);
        }
        let settings = Settings {
            mirroring: creation.mirroring,
            revision: creation.revision,
            open_bus: self.open_bus,
        };
        let created = self.buffers.create(layout, settings);
        let board = created.board;
        self.board = Some(board);
        self.told = Told::number(created.refusal);
        if creation.bytes != Bytes::Kept {
            self.set_mark(board);
        }
        if self.printed >= Printed::Answers {
            self.put_created(out, created.refusal);
            self.put_dump(out, &board);
        }
    }

    // The lengths of the buffers, or the refusal.
    fn put_created(&self, out: &mut Output, refusal: u8) {
        if refusal != 0 {
            put_refused(out, refusal);
            return;
        }
        let fixed = self.buffers.lent(Buffer::Fixed).len();
        let changing = self.buffers.lent(Buffer::Changing).len();
        put!(out; "N {fixed} {changing}\n");
    }

    // What a page view shows, if it is not refused.
    fn see(&mut self, board: Board, addr: u16) {
        let view = self.buffers.view(board, addr);
        if view.len() == 1024 {
            let hash = fnv(FNV_START, view);
            self.told.said = Some(Said::View(View { addr, hash }));
        }
    }

    fn call(&mut self, out: &mut Output, line: CallLine) -> Result<(), ScriptError> {
        let board = self.board()?;
        let call = call_of(line);
        let stepped = self.buffers.step(board, call);
        let next = stepped.board;
        self.board = Some(next);
        self.told = Told::from(stepped.answer);
        if let Call::PageView(addr) = call {
            self.see(next, addr);
        }
        if self.printed >= Printed::Answers {
            put_answer(out, line, self.told);
            self.put_dump(out, &next);
        }
        Ok(())
    }

    fn clock(&mut self, out: &mut Output, n: u32) -> Result<(), ScriptError> {
        let mut board = self.board()?;
        self.told = match clock_times(&mut board, n) {
            Ok(clocks) => Told::said(Said::Clocks(clocks)),
            Err(refusal) => Told::refused(refusal),
        };
        self.board = Some(board);
        if self.printed >= Printed::Answers {
            put_answer(out, "C", self.told);
            self.put_dump(out, &board);
        }
        Ok(())
    }

    fn lend(&mut self, buffer: Buffer, length: u32) -> Result<(), ScriptError> {
        let board = self.board()?;
        self.buffers.lend(buffer, length)?;
        self.set_mark(board);
        Ok(())
    }

    // Sets a value of the board or a byte; what was answered can't be set.
    fn poke(&mut self, value: Value, n: u32) -> Result<(), ScriptError> {
        let mut board = self.board()?;
        match value {
            Value::Byte(buffer, at) => self.buffers.poke(buffer, at, n),
            Value::Board(name) => set(&mut board, name, n),
            _ => return Err(ScriptError::NoValue),
        }
        self.board = Some(board);
        self.set_mark(board);
        Ok(())
    }

    fn is_untouched(&self) -> bool {
        match &self.mark {
            Some(mark) => mark.changing == self.buffers.hash(Buffer::Changing),
            None => false,
        }
    }

    fn is_kept(&self, board: &Board) -> bool {
        match &self.mark {
            Some(mark) => self.is_untouched() && same(&mark.board, board) && self.told.is_mute(),
            None => false,
        }
    }

    // A byte of the last page view, 0 behind its end (oracle/FORMAT.md).
    fn view_byte(&self, board: Board, at: u32) -> u32 {
        match self.told.said {
            Some(Said::View(view)) => byte_at(self.buffers.view(board, view.addr), at, 0),
            _ => 0,
        }
    }

    // What there is of a value; a byte behind its buffer's end is 1,000 (oracle/FORMAT.md).
    fn found(&self, board: Board, wanted: Value) -> u32 {
        match wanted {
            Value::Byte(buffer, at) => byte_at(self.buffers.lent(buffer), at, 1000),
            Value::Board(name) => value(&board, name),
            Value::Answer(name) => self.told.value(name),
            Value::ViewByte(at) => self.view_byte(board, at),
            Value::Untouched => u32::from(self.is_untouched()),
            Value::Kept => u32::from(self.is_kept(&board)),
        }
    }

    // What is shown where answers are asked for.
    fn show(&self, out: &mut Output, shown: Shown) -> Result<(), ScriptError> {
        let board = self.board()?;
        if self.printed < Printed::Answers {
            return Ok(());
        }
        match shown {
            Shown::Registers => put!(out; "{}", Registers(&board)),
            Shown::Buffers => {
                let fixed = self.buffers.hash(Buffer::Fixed);
                let changing = self.buffers.hash(Buffer::Changing);
                put!(out; "H {fixed:08x} {changing:08x}\n");
            }
            Shown::Dump => put!(out; "{}", Dump(&board)),
        }
        // A dump has no other behind it.
        if shown != Shown::Dump {
            self.put_dump(out, &board);
        }
        Ok(())
    }

    // Of a line that is wrong nothing is done.
    pub fn play(&mut self, out: &mut Output, number: u64, text: &[u8]) -> Result<(), ScriptError> {
        let Some(line) = parse(text)? else {
            return Ok(());
        };
        match line {
            Line::Heading => put_heading(out, text),
            Line::OpenBus(on) => self.open_bus = on,
            Line::Create(creation) => self.create(out, creation),
            Line::Call(call) => self.call(out, call)?,
            Line::Clock(n) => self.clock(out, n)?,
            Line::Show(shown) => self.show(out, shown)?,
            Line::Lend(buffer, length) => self.lend(buffer, length)?,
            Line::Poke(value, n) => self.poke(value, n)?,
            Line::Expect(value, expected) => {
                let got = self.found(self.board()?, value);
                self.rows.row(out, text, number, value, expected, got);
            }
        }
        Ok(())
    }
}
