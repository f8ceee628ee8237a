// The arguments of a program, as bytes: one that is no UTF-8 text is told as it stands.
#![tactic(auto)]

ghost use Rattle.std.specs.Prelude.{◌≡◌, ℕ, ◌+◌, ◌-◌, ◌^◌, ◌≤◌, List, take, OnSome};
ghost use Rattle.std.specs.Iterator.{at_most};

use std::env::{Env, FillError};
use std::marker::Model;

// The bytes of the longest path.
pub const LONGEST: usize = 4096;

// One argument, in a buffer that the environment fills: a Vec would take memory, and an argument could fail. A longer one than any path
// counts as empty.
#[derive(Drop)]
pub struct Argument {
    space: [u8; LONGEST],
    len: usize,
}

// Its bytes.
impl Model for Argument {
    ghost Value = { List ℕ };

    ghost view = { λ a. take a.len a.space };

    ghost invariant = { λ a. a.len ≤ 4096 };
}

impl Argument {
    pub fn bytes(&self) -> &[u8]
        ensures { result.now ≡ self.now }
    {
        &self.space[..self.len]
    }
}

// The arguments behind the program's name, in order.
#[derive(Drop)]
pub struct Arguments<'a, E: Env> {
    env: &'a E,
    place: usize,
}

// How many of them have been told.
impl<'a, E: Env> Model for Arguments<'a, E> {
    ghost Value = { ℕ };

    ghost view = { λ a. a.place };
}

impl<'a, E: Env> Arguments<'a, E> {
    pub fn new(env: &'a E) -> Arguments<'a, E>
        ensures { result ≡ 0 }
    {
        Arguments { env, place: 0 }
    }
}

impl<'a, E: Env> Iterator for Arguments<'a, E> {
    type Item = Argument;

    ghost next_gives = { λ old argument new. OnSome argument (new ≡ old + 1) };

    ghost remaining = { λ told. at_most (2 ^ 64 - 1 - told) };

    fn next(&mut self) -> Option<Argument> {
        if self.place == usize::MAX {
            return None;
        }
        self.place += 1;
        let mut space = [0; LONGEST];
        match self.env.arg(self.place, &mut space) {
            Ok(len) => Some(Argument { space, len }),
            Err(FillError::TooLong) => Some(Argument { space, len: 0 }),
            Err(FillError::NotPresent) => None,
        }
    }
}
