// The cells of many words: steps, and letters. Each word that is wrong is told.
use crate::faults::{Fault, Told, WordFault};
use crate::letters::Banks;
use crate::row::Row;
use crate::scene::Steps;
use scene_cells::columns::Column;
use scene_cells::quotes::Unquoted;
use scene_steps::Step;
use scene_steps::letters::pair_of;
use scene_steps::step::step_of;
use text_output::Output;
use text_words::names::Words;

fn keep_step(steps: &mut Steps, step: Step) -> Result<(), Fault> {
    steps.push(step).ok_or(Fault::ManySteps)
}

// Keeps a pair's bank in its slot's place.
fn keep_pair(asked: &mut Banks, word: &[u8]) -> Result<(), WordFault> {
    let pair = pair_of(word).map_err(WordFault::Pair)?;
    if let Some(bank) = asked.get_mut(pair.slot as usize) {
        if bank.is_some() {
            return Err(WordFault::SecondBank);
        }
        *bank = Some(pair.bank);
    }
    Ok(())
}

// The steps of a column's cell, in their order, in place of those that were kept.
pub(crate) fn read_steps(
    row: Row,
    column: Column,
    out: &mut Output,
    steps: &mut Steps,
) -> Result<(), Told> {
    steps.clear();
    let mut read = Ok(());
    let mut kept = Ok(());
    let cell = row.unquoted(column);
    for word in (Words { text: cell.bytes }) {
        match step_of(word) {
            Ok(step) => kept = kept.and(keep_step(steps, step)),
            Err(error) => {
                let word = Unquoted {
                    bytes: word,
                    ..cell
                };
                row.tell_word(out, column, word, WordFault::Step(error));
                read = Err(Told);
            }
        }
    }
    if let Err(fault) = kept {
        row.tell(out, Some(column), fault);
        return Err(Told);
    }
    read
}

// The banks that the cell of the letters asks.
pub(crate) fn read_letters(row: Row, out: &mut Output) -> Result<Banks, Told> {
    let mut asked = [None; 8];
    let mut read = Ok(());
    let cell = row.unquoted(Column::Letters);
    for word in (Words { text: cell.bytes }) {
        if let Err(fault) = keep_pair(&mut asked, word) {
            let word = Unquoted {
                bytes: word,
                ..cell
            };
            row.tell_word(out, Column::Letters, word, fault);
            read = Err(Told);
        }
    }
    read?;
    Ok(asked)
}
