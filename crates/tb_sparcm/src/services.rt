//! The services of `ta`.

ghost use Rattle.std.specs.Prelude.{◌≡◌, ◌≤◌, [], ◌∷◌, ⊤, None};
ghost use Rattle.std.specs.Bool.{MatchBool};
ghost use Rattle.tb_base.specs.Outside.{Rose};
ghost use Rattle.tb_mac.specs.MacStep.{kept_ahead, taken_word};
ghost use Rattle.tb_macm.specs.Steps.{Adds};
ghost use Rattle.tb_macm.specs.calls.Quiet.{Finds};
ghost use Rattle.tb_sparc.specs.SparcStep.{cause_of, char_of};
ghost use Rattle.tb_sparc.specs.WordBits.{word_bits};

use super::data::word_number;
use super::state::State;
use tb_base::{Failed, Sink, Source};
use tb_mac::{MacCode, place_of};
use tb_macm::Step;
use tb_prim::{Cause, Event, Stop, Taken};

/// The causes by number.
fn cause_of(number: u32) -> Option<Cause>
    ensures { result ≡ cause_of number }
{
    match number {
        1 => Some(Cause::NotProcedure),
        2 => Some(Cause::WrongArgs),
        3 => Some(Cause::WrongType),
        4 => Some(Cause::Overflow),
        5 => Some(Cause::Range),
        6 => Some(Cause::ZeroDivide),
        7 => Some(Cause::Undefined),
        8 => Some(Cause::TooMany),
        _ => None,
    }
}

/// The character of which these are the bits.
fn char_of(w: u32) -> Option<u8>
    ensures { result ≡ char_of w }
{
    if w % 256 == 10 && w / 256 < 256 {
        Some((w / 256) as u8)
    } else {
        None
    }
}

/// Puts one byte, by one call, and says whether it was taken.
fn put_byte<O: Sink>(out: &mut O, byte: u8) -> bool
    ensures held { MatchBool result (Adds (O.held out.old) (O.held out.new) (byte ∷ []))
        (Adds (O.held out.old) (O.held out.new) []) }
    ensures cause { MatchBool result ⊤ (Rose (O.faults out.old) (O.faults out.new)) }
    ensures later { O.faults out.old ≤ O.faults out.new }
{
    match out.put(&[byte]) {
        Ok(count) => count != 0,
        Err(_) => false,
    }
}

/// The next byte of the input, or its end.
fn take_byte<I: Source>(input: &mut I) -> Result<Taken, Failed>
    ensures finds { Finds (I.left input.old) (I.left input.new) (I.faults input.old) (I.faults input.new) None result }
    ensures later { I.faults input.old ≤ I.faults input.new }
{
    let mut bytes = [0];
    match input.take(&mut bytes)? {
        0 => Ok(Taken::End),
        _ => Ok(Taken::Byte(bytes[0])),
    }
}

/// The bits of what was taken: a character, or the end object.
fn taken_bits(taken: Taken) -> u32
    ensures { result ≡ word_bits [] (taken_word taken) }
{
    match taken {
        Taken::Byte(byte) => u32::from(byte) * 256 + 10,
        Taken::End => 1282,
    }
}

fn kept(taken: Taken) -> Option<Taken>
    ensures { result ≡ kept_ahead taken }
{
    match taken {
        Taken::Byte(_) => None,
        Taken::End => Some(Taken::End),
    }
}

impl State {
    ghost use Rattle.std.specs.Prelude.{◌≡◌, ◌≤◌, None, false};
    ghost use Rattle.tb_mac.specs.CodeOf.{code_of};
    ghost use Rattle.tb_macm.specs.Steps.{asks_ahead, faults};
    ghost use Rattle.tb_macm.specs.calls.Quiet.{Finds};
    ghost use Rattle.tb_sparc.specs.SparcStep.{Peeks, Takes, fail, put_char, received, request, serve};
    ghost use Rattle.tb_sparcm.specs.States.{sparc_of};
    ghost use Rattle.tb_sparcm.specs.Steps.{asks, byte_put};
    ghost use Rattle.tb_sparcm.specs.calls.Quiet.{Does, DoesAt, OutputDoes, ReadDoes};

    /// The machine fails with the cause in register 2, at the place of the instruction of the last group start.
    fn fail(&self, code: &MacCode) -> Step
        ensures { Does (fail (code_of code.now) (sparc_of self.now)) (sparc_of self.now) (sparc_of self.now) result }
    {
        let Some(cause) = cause_of(self.registers[2]) else {
            return self.stuck();
        };
        match place_of(code.places.as_slice(), self.group) {
            Some(place) => Step::Stopped(Stop::Fail(cause, place)),
            None => self.stuck(),
        }
    }

    /// The words in register 3 do not fit between the pointers.
    fn request(&self) -> Step
        ensures { Does (request (sparc_of self.now)) (sparc_of self.now) (sparc_of self.now) result }
    {
        let pointer = word_number(self.registers[1]);
        let stack = word_number(self.registers[14]);
        let need = self.registers[3];
        if u64::from(pointer) + u64::from(need) > u64::from(stack) {
            Step::Stopped(Stop::Full {
                pointer,
                stack,
                need,
            })
        } else {
            self.stuck()
        }
    }

    /// The character in register 8 is put first, so that the state stays where it is not taken.
    fn put_char<O: Sink>(&mut self, out: &mut O) -> Step
        ensures does { OutputDoes (put_char (sparc_of self.old)) (sparc_of self.old) (sparc_of self.new)
            (O.held out.old) (O.held out.new) (O.faults out.old) (O.faults out.new) result }
        ensures later { O.faults out.old ≤ O.faults out.new }
        ensures untouched { byte_put (put_char (sparc_of self.old)) ≡ None → out.new ≡ out.old }
    {
        let Some(byte) = char_of(self.registers[8]) else {
            return self.stuck();
        };
        if !put_byte(out, byte) {
            return Step::Stopped(Stop::WriteFault);
        }
        self.advance();
        Step::Went(Some(Event::Put(byte)))
    }

    /// What comes next: what is ahead, else the next byte of the input, or its end.
    fn next<I: Source>(&self, input: &mut I) -> Result<Taken, Failed>
        ensures finds { Finds (I.left input.old) (I.left input.new) (I.faults input.old) (I.faults input.new)
            self.now.ahead result }
        ensures later { I.faults input.old ≤ I.faults input.new }
        ensures untouched { asks_ahead self.now.ahead ≡ false → input.new ≡ input.old }
    {
        match self.ahead {
            Some(taken) => Ok(taken),
            None => take_byte(input),
        }
    }

    /// Register 8 gets what was taken or peeked at, and this stays ahead.
    fn receive(&mut self, taken: Taken, ahead: Option<Taken>)
        ensures { sparc_of self.new ≡ received taken ahead (sparc_of self.old) }
    {
        self.ahead = ahead;
        self.put(8, taken_bits(taken));
    }

    /// Register 8 gets what the input has next, which is taken.
    fn take<I: Source>(&mut self, input: &mut I) -> Step
        ensures does { ReadDoes Takes (sparc_of self.old) (sparc_of self.new) (I.left input.old)
            (I.left input.new) (I.faults input.old) (I.faults input.new) result }
        ensures later { I.faults input.old ≤ I.faults input.new }
        ensures untouched { asks_ahead self.old.ahead ≡ false → input.new ≡ input.old }
    {
        match self.next(input) {
            Ok(taken) => {
                self.receive(taken, kept(taken));
                Step::Went(Some(Event::Took(taken)))
            }
            Err(_) => Step::Stopped(Stop::ReadFault),
        }
    }

    /// Register 8 gets what the input has next, which stays ahead.
    fn peek<I: Source>(&mut self, input: &mut I) -> Step
        ensures does { ReadDoes Peeks (sparc_of self.old) (sparc_of self.new) (I.left input.old)
            (I.left input.new) (I.faults input.old) (I.faults input.new) result }
        ensures later { I.faults input.old ≤ I.faults input.new }
        ensures untouched { asks_ahead self.old.ahead ≡ false → input.new ≡ input.old }
    {
        match self.next(input) {
            Ok(taken) => {
                self.receive(taken, Some(taken));
                Step::Went(None)
            }
            Err(_) => Step::Stopped(Stop::ReadFault),
        }
    }

    /// A service by its number.
    #[tactic(auto, using(crate::proofs::StepLaws::quiet_step, crate::proofs::StepLaws::read_step, crate::proofs::StepLaws::output_step))]
    pub fn serve<I: Source, O: Sink>(
        &mut self,
        code: &MacCode,
        service: u8,
        input: &mut I,
        out: &mut O,
    ) -> Step
        ensures does { DoesAt None (serve (code_of code.now) service (sparc_of self.old)) (sparc_of self.old)
            (sparc_of self.old) (sparc_of self.new) (I.left input.old) (I.left input.new) (O.held out.old)
            (O.held out.new) (faults (I.faults input.old) (O.faults out.old))
            (faults (I.faults input.new) (O.faults out.new)) result }
        ensures unread { asks (sparc_of self.old) (serve (code_of code.now) service (sparc_of self.old)) ≡ false
            → input.new ≡ input.old }
        ensures unwritten { byte_put (serve (code_of code.now) service (sparc_of self.old)) ≡ None
            → out.new ≡ out.old }
        ensures later_input { I.faults input.old ≤ I.faults input.new }
        ensures later_output { O.faults out.old ≤ O.faults out.new }
    {
        match service {
            0 => Step::Stopped(Stop::End),
            1 => self.fail(code),
            2 => self.request(),
            3 => self.put_char(out),
            4 => self.take(input),
            5 => self.peek(input),
            6 => self.clear(),
            _ => self.stuck(),
        }
    }
}
