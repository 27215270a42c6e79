//! The steps that read input and write output.

ghost use Rattle.std.specs.Prelude.{◌≡◌, ◌≤◌, [], ◌∷◌, ⊤};
ghost use Rattle.tb_mac.specs.MacStep.{taken_word, kept_ahead};
ghost use Rattle.std.specs.Bool.{MatchBool};
ghost use Rattle.tb_base.specs.Outside.{Rose};
ghost use Rattle.tb_macm.specs.Steps.{Adds};
ghost use Rattle.tb_macm.specs.calls.Quiet.{Finds};

use super::Step;
use super::state::State;
use tb_base::{Failed, Sink, Source};
use tb_mac::Word;
use tb_prim::{Event, Stop, Taken};

/// Puts one byte, by one call, and says whether it was taken.
fn put_byte<O: Sink>(out: &mut O, byte: u8) -> bool
    ensures held { MatchBool result (Adds (O.held out.old) (O.held out.new) (byte ∷ []))
        (Adds (O.held out.old) (O.held out.new) []) }
    ensures cause { MatchBool result ⊤ (Rose (O.faults out.old) (O.faults out.new)) }
    ensures later { O.faults out.old ≤ O.faults out.new }
{
    match out.put(&[byte]) {
        Ok(count) => count != 0,
        Err(_) => false,
    }
}

/// The next byte of the input, or its end.
fn take_byte<I: Source>(input: &mut I) -> Result<Taken, Failed>
    ensures finds { Finds (I.left input.old) (I.left input.new) (I.faults input.old) (I.faults input.new) None result }
    ensures later { I.faults input.old ≤ I.faults input.new }
{
    let mut bytes = [0];
    match input.take(&mut bytes)? {
        0 => Ok(Taken::End),
        _ => Ok(Taken::Byte(bytes[0])),
    }
}

fn word_of(taken: Taken) -> Word
    ensures { result ≡ taken_word taken }
{
    match taken {
        Taken::Byte(byte) => Word::Char(byte),
        Taken::End => Word::Special(5),
    }
}

fn kept(taken: Taken) -> Option<Taken>
    ensures { result ≡ kept_ahead taken }
{
    match taken {
        Taken::Byte(_) => None,
        Taken::End => Some(Taken::End),
    }
}

impl State {
    ghost use Rattle.std.specs.Prelude.{◌≡◌, ◌<◌, ◌≤◌, ◌^◌, None, false};
    ghost use Rattle.tb_mac.specs.Words.{unspecified};
    ghost use Rattle.tb_mac.specs.MacStep.{TakesTo, PeeksTo, Emits, received, set_register};
    ghost use Rattle.tb_macm.specs.States.{mac_of};
    ghost use Rattle.tb_macm.specs.Steps.{asks_ahead};
    ghost use Rattle.tb_macm.specs.calls.Quiet.{Finds, ReadDoes, WriteDoes};

    /// What comes next: what is ahead, else the next byte of the input, or its end.
    fn next<I: Source>(&self, input: &mut I) -> Result<Taken, Failed>
        ensures finds { Finds (I.left input.old) (I.left input.new) (I.faults input.old) (I.faults input.new)
            self.now.ahead result }
        ensures later { I.faults input.old ≤ I.faults input.new }
        ensures untouched { asks_ahead self.now.ahead ≡ false → input.new ≡ input.old }
    {
        match self.ahead {
            Some(taken) => Ok(taken),
            None => take_byte(input),
        }
    }

    /// A register gets what was taken or peeked at, and this stays ahead.
    fn receive(&mut self, a: u8, taken: Taken, ahead: Option<Taken>)
        requires register { a ≤ 16 }
        requires room { self.old.pc < 2 ^ 24 }
        ensures { mac_of self.new ≡ received a taken ahead (mac_of self.old) }
    {
        self.ahead = ahead;
        self.registers[a as usize] = word_of(taken);
        self.pc += 1;
    }

    /// A register gets what the input has next, which is taken.
    pub fn read<I: Source>(&mut self, a: u8, input: &mut I) -> Step
        requires register { a ≤ 16 }
        requires room { self.old.pc < 2 ^ 24 }
        ensures does { ReadDoes (TakesTo a) (mac_of self.old) (mac_of self.new) (I.left input.old)
            (I.left input.new) (I.faults input.old) (I.faults input.new) result }
        ensures later { I.faults input.old ≤ I.faults input.new }
        ensures untouched { asks_ahead self.old.ahead ≡ false → input.new ≡ input.old }
    {
        match self.next(input) {
            Ok(taken) => {
                self.receive(a, taken, kept(taken));
                Step::Went(Some(Event::Took(taken)))
            }
            Err(_) => Step::Stopped(Stop::ReadFault),
        }
    }

    /// A register gets what the input has next, which stays ahead.
    pub fn peek<I: Source>(&mut self, a: u8, input: &mut I) -> Step
        requires register { a ≤ 16 }
        requires room { self.old.pc < 2 ^ 24 }
        ensures does { ReadDoes (PeeksTo a) (mac_of self.old) (mac_of self.new) (I.left input.old)
            (I.left input.new) (I.faults input.old) (I.faults input.new) result }
        ensures later { I.faults input.old ≤ I.faults input.new }
        ensures untouched { asks_ahead self.old.ahead ≡ false → input.new ≡ input.old }
    {
        match self.next(input) {
            Ok(taken) => {
                self.receive(a, taken, Some(taken));
                Step::Went(None)
            }
            Err(_) => Step::Stopped(Stop::ReadFault),
        }
    }

    /// Puts a byte first, so that the state stays where it is not taken; a register gets the unspecified value.
    pub fn write<O: Sink>(&mut self, a: u8, byte: u8, out: &mut O) -> Step
        requires register { a ≤ 16 }
        requires room { self.old.pc < 2 ^ 24 }
        ensures does { WriteDoes (Emits (Event.Put byte) (set_register a unspecified (mac_of self.old)))
            (mac_of self.old) (mac_of self.new) (O.held out.old) (O.held out.new) (O.faults out.old)
            (O.faults out.new) result }
        ensures later { O.faults out.old ≤ O.faults out.new }
    {
        if !put_byte(out, byte) {
            return Step::Stopped(Stop::WriteFault);
        }
        self.registers[a as usize] = Word::Special(3);
        self.pc += 1;
        Step::Went(Some(Event::Put(byte)))
    }
}
