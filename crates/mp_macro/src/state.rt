// What an expansion has come to.
ghost use Rattle.std.specs.Prelude.{length, ◌≤◌};

use mp_base::{Bytes, MacroKind, NoMemory};
use mp_mvalue::{Env, MacroFault, SharedValue, copy};
use std::alloc::Global;

// How many bytes the expanded text may have.
const MOST_BYTES: usize = 8_388_608;

// How many turns of loops and includes may be made.
const MOST_TURNS: u32 = 1_000_000;

/// The values of names, how many loop turns and includes were made, and the text written.
#[derive(Drop)]
pub struct State {
    pub(crate) env: Env,
    turns: u32,
    text: Bytes,
    ghost short: { length text ≤ 8388608 },
}

impl State {
    ghost use Rattle.std.specs.Prelude.{◌≡◌, ◌≤◌, ◌++◌, ◌∷◌, [], length, Some, option_map, OnOk, IfOk};
    ghost use Rattle.mp_base.specs.Answers.{Gives};
    ghost use Rattle.mp_mvalue.specs.Environments.{value_in};
    ghost use Rattle.mp_mvalue.specs.Shared.{unshared};
    ghost use Rattle.mp_mvalue.specs.Told.{told};
    ghost use Rattle.mp_macro.specs.States.{written, counted, named};
    ghost use Rattle.mp_macro.specs.Says.{state_of};

    // No turn is made and nothing is written.
    pub(crate) fn new(alloc: Global, env: Env) -> State
        ensures { state_of result ≡ record { names = value_in env; turns = 0; text = [] } }
    {
        State {
            env,
            turns: 0,
            text: Bytes::new(alloc),
        }
    }

    // Writes a piece.
    pub(crate) fn write(&mut self, piece: &[u8]) -> Result<(), MacroFault>
        ensures { Gives (λ u. state_of self.new) told result (written piece.now (state_of self.old)) }
    {
        if piece.len() > MOST_BYTES - self.text.as_slice().len() {
            return Err(MacroFault::Refused {
                kind: MacroKind::TextLimit,
            });
        }
        self.text.add(piece)?;
        Ok(())
    }

    // Writes the rest of a line with its newline.
    pub(crate) fn write_rest(&mut self, rest: &[u8]) -> Result<(), MacroFault>
        ensures { Gives (λ u. state_of self.new) told result (written (rest.now ++ 10 ∷ []) (state_of self.old)) }
    {
        if rest.len() >= MOST_BYTES - self.text.as_slice().len() {
            return Err(MacroFault::Refused {
                kind: MacroKind::TextLimit,
            });
        }
        self.text.add(rest)?;
        self.text.add(b"\n")?;
        Ok(())
    }

    // Counts a turn of a loop, or an include.
    pub(crate) fn count(&mut self) -> Result<(), MacroFault>
        ensures { Gives (λ u. state_of self.new) told result (counted (state_of self.old)) }
    {
        if self.turns >= MOST_TURNS {
            return Err(MacroFault::Refused {
                kind: MacroKind::TurnsLimit,
            });
        }
        self.turns += 1;
        Ok(())
    }

    // The name has this value from now on.
    pub(crate) fn name(&mut self, name: &[u8], value: SharedValue) -> Result<(), NoMemory>
        ensures { OnOk result (state_of self.new ≡ named name.now (Some (unshared value)) (state_of self.old)) }
    {
        self.env.set(name, value)
    }

    // The name's value.
    pub(crate) fn value(&self, name: &[u8]) -> Result<Option<SharedValue>, NoMemory>
        ensures { IfOk result (λ v. option_map unshared v ≡ (state_of self.now).names name.now) }
    {
        match self.env.get(name) {
            Some(value) => Ok(Some(copy(value)?)),
            None => Ok(None),
        }
    }

    // The name has this value again, or none.
    pub(crate) fn restore(
        &mut self,
        name: &[u8],
        value: Option<SharedValue>,
    ) -> Result<(), NoMemory>
        ensures { OnOk result (state_of self.new ≡ named name.now (option_map unshared value) (state_of self.old)) }
    {
        match value {
            Some(value) => self.env.set(name, value),
            None => {
                self.env.unset(name);
                Ok(())
            }
        }
    }

    // The text written.
    pub(crate) fn into_text(self) -> Bytes
        ensures text { result ≡ (state_of self).text }
        ensures short { length result ≤ 8388608 }
    {
        self.text
    }
}
